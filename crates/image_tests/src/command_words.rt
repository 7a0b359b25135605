//! Words, right and wrong.
use dump_words::{RootWord, guest_word, profile_word, root_word, skip_word, tree_word};
use image_dump::Skip;
use std::test::Fail;
use table_words::{Release, linux_host, linux_hypervisor};

#[test]
fn reads_words(rt: HostRuntime) -> Result<(), Fail> {
    let root = RootWord {
        frame: 0x40000,
        depth: 2,
        pages: 8,
    };
    let plain = RootWord {
        frame: 0x40000,
        depth: 3,
        pages: 1,
    };
    let wide = RootWord { depth: 4, ..plain };
    assert!(&rt; root_word(b"0x40000:1:8") == Some(root), "a root");
    assert!(&rt; root_word(b"0x40000") == Some(plain), "a frame");
    assert!(&rt; root_word(b"0x40000:-1") == Some(wide), "level -1");
    for word in [
        b"0x40000:4:1".as_slice(),
        b"0x40000:1:17",
        b"0x40000:-1:2",
        b"0x40000:-2",
        b"0x40000:-",
        b"0x40000:1:8:",
        b"40000x",
        b":1",
        b"",
    ] {
        assert!(&rt; root_word(word).is_none(), "no root");
    }
    assert!(&rt; guest_word(b"7=0x40000:1:8") == Some((7, root)), "a guest");
    assert!(&rt; guest_word(b"64=0x40000").is_none(), "no guest");
    assert!(&rt; tree_word(b"hyp") == Some(1), "a tree");
    let skip = Skip {
        tree: 1,
        first: 0x10,
        last: 0x1f,
    };
    assert!(&rt; skip_word(b"hyp=0x10-0x1f") == Some(skip), "pages");
    assert!(&rt; skip_word(b"hyp=0x10-0xf").is_none(), "no pages");
    let host = linux_host(Release::V7, true, true);
    assert!(&rt;
        profile_word(b"host=7.3-fwb-lpa2") == Some((0, host)),
        "a profile"
    );
    let hypervisor = linux_hypervisor(Release::V6, false, false);
    assert!(&rt;
        profile_word(b"hyp=6.12") == Some((1, hypervisor)),
        "a profile"
    );
    assert!(&rt; profile_word(b"hyp=6.12-fwb").is_none(), "no profile");
    Ok(())
}

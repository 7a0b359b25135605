//! The way to carry a trace out, by its lines.
ghost use Rattle.std.specs.Prelude.{◌≡◌, ◌<◌, IfSome, length, map};
ghost use Rattle.std.specs.List.{list_any, position};
ghost use Rattle.trace_cases.specs.Ways.{has_poke as has_poke_by, is_poke as is_poke_by, is_start as is_start_by, start_at as start_at_by};

/// Whether a line of a trace begins as a poke does.
pub(crate) fn has_poke(lines: &[&[u8]]) -> bool
    ensures { result ≡ has_poke_by (map (λ line. line.now) lines.now) }
{
    any_is_poke(lines)
}

fn any_is_poke(lines: &[&[u8]]) -> bool
    ensures { result ≡ list_any (λ line. is_poke_by line.now) lines.now }
{
    lines.iter().any(|line| is_poke(line))
}

fn is_poke(line: &[u8]) -> bool
    ensures { result ≡ is_poke_by line.now }
{
    line.starts_with(b"poke")
}

/// How many lines are before the first that begins as `start` does, if one does.
pub(crate) fn start_at(lines: &[&[u8]]) -> Option<usize>
    ensures place { result ≡ start_at_by (map (λ line. line.now) lines.now) }
    ensures below { IfSome result (λ place. place < length lines.now) }
{
    first_start(lines)
}

fn first_start(lines: &[&[u8]]) -> Option<usize>
    ensures place { result ≡ position (λ line. is_start_by line.now) lines.now }
    ensures below { IfSome result (λ place. place < length lines.now) }
{
    lines.iter().position(|line| is_start(line))
}

fn is_start(line: &[u8]) -> bool
    ensures { result ≡ is_start_by line.now }
{
    line.starts_with(b"start")
}

//! What the first words of a line ask for.
ghost use Rattle.std.specs.Prelude.{◌≡◌, ◌+◌, ◌≤◌, IfSome, option_and_then, option_map};
ghost use Rattle.trace_lines.specs.Arguments.{number_at as number_at_place};
ghost use Rattle.trace_lines.specs.Asked.{
  asked as asked_by,
  begins_with_digit as begins_with_digit_byte,
  headers,
  of_call as of_call_by,
  of_poke as of_poke_by,
  of_show as of_show_by,
  of_tree as of_tree_by,
  poke_of as poke_by,
  pools as pools_by,
  tree_names,
  word_of as word_by,
};
ghost use Rattle.trace_lines.specs.Calls.{called as called_by};
ghost use Rattle.trace_words.specs.Words.{named};

use crate::argument::{level_at, number_at, range_of, slot_at};
use crate::call::Called;
use crate::line::{Line, Poke, Query, Setting, TreeName};
use crate::place::{SettingName, Verb};
use call_table::Step;
use trace_words::{Words, is_name};

/// The request of a line by its first words, and the line by all of them.
#[derive(Clone, Copy)]
pub struct Asked {
    pub verb: Verb,
    /// How many words such a line has.
    pub words: usize,
    /// None if a word is missing or hasn't the form that its place needs.
    pub line: Option<Line>,
}

/// A tree that words name.
#[derive(Clone, Copy)]
pub struct NamedTree {
    /// How many words its name has.
    pub words: usize,
    /// None if a slot is missing or hasn't the form of one.
    pub tree: Option<TreeName>,
}

impl Asked {
    /// The request of a line. None if its first word, its call, or the tree or pool that it names is unknown or
    /// missing. A line whose first word begins with a digit is a step line.
    #[tactic(auto, unfolding(crate::specs::Asked::asked))]
    pub fn of(words: &Words<'_>) -> Option<Asked>
        ensures { result ≡ asked_by words.now }
    {
        let first = words.get(0)?;
        if begins_with_digit(first) {
            return call(words.get(1)?, words);
        }
        if is_name(first, b"word") {
            return tree(words.get(1)?, words);
        }
        if is_name(first, b"free") {
            return pool(words.get(1)?, words);
        }
        if is_name(first, b"show") {
            return show(words.get(1)?, words);
        }
        if is_name(first, b"poke") {
            return poke(words.get(1)?, words);
        }
        header(first, words)
    }
}

fn begins_with_digit(word: &[u8]) -> bool
    ensures { result ≡ begins_with_digit_byte word.now }
{
    matches!(word, [b'0'..=b'9', ..])
}

/// The lines whose first word says the whole request.
fn header(first: &[u8], words: &Words<'_>) -> Option<Asked>
    ensures { result ≡ named (headers words.now) first.now }
{
    if is_name(first, b"geometry") {
        let setting = number_at(words, 1).map(Setting::Geometry);
        Some(setting_line(SettingName::Geometry, 2, setting))
    } else if is_name(first, b"cpus") {
        let setting = number_at(words, 1).map(Setting::Cpus);
        Some(setting_line(SettingName::Cpus, 2, setting))
    } else if is_name(first, b"log") {
        let setting = number_at(words, 1).map(Setting::Log);
        Some(setting_line(SettingName::Log, 2, setting))
    } else if is_name(first, b"memory") {
        let setting = range_of(words).map(Setting::Memory);
        Some(setting_line(SettingName::Memory, 3, setting))
    } else if is_name(first, b"device") {
        let setting = range_of(words).map(Setting::Device);
        Some(setting_line(SettingName::Device, 3, setting))
    } else if is_name(first, b"carve") {
        let setting = range_of(words).map(Setting::Carve);
        Some(setting_line(SettingName::Carve, 3, setting))
    } else if is_name(first, b"boot") {
        Some(Asked {
            verb: Verb::Boot,
            words: 1,
            line: Some(Line::Boot),
        })
    } else if is_name(first, b"start") {
        Some(Asked {
            verb: Verb::Start,
            words: 1,
            line: Some(Line::Start),
        })
    } else {
        None
    }
}

/// A line that gives a setting.
fn setting_line(name: SettingName, words: usize, setting: Option<Setting>) -> Asked
    ensures { result
        ≡ record {
          verb = Verb.Setting name;
          words = words;
          line = option_map Line.Setting setting;
        } }
{
    Asked {
        verb: Verb::Setting(name),
        words,
        line: setting.map(Line::Setting),
    }
}

/// A step line of the call of this name.
fn call(name: &[u8], words: &Words<'_>) -> Option<Asked>
    ensures { result ≡ option_map (of_call_by words.now) (called_by words.now name.now) }
{
    let called = Called::of(name, words)?;
    Some(Asked {
        verb: Verb::Step,
        words: called.words,
        line: step_line(words, called.step),
    })
}

fn step_line(words: &Words<'_>, step: Option<Step>) -> Option<Line>
    ensures { result
        ≡ option_and_then (λ cpu. option_map (Line.Step cpu) step) (number_at_place words.now 0) }
{
    let cpu = number_at(words, 0)?;
    let step = step?;
    Some(Line::Step { cpu, step })
}

/// `word` of the tree of this name.
fn tree(name: &[u8], words: &Words<'_>) -> Option<Asked>
    ensures { result ≡ option_map (of_tree_by words.now) (named (tree_names words.now) name.now) }
{
    let named = tree_name(name, words)?;
    Some(Asked {
        verb: Verb::Query,
        words: 3 + named.words,
        line: word_line(named, words),
    })
}

fn word_line(named: NamedTree, words: &Words<'_>) -> Option<Line>
    requires few { named.words ≤ 2 }
    ensures { result ≡ option_and_then (word_by words.now (1 + named.words)) named.tree }
{
    word_of(named.tree?, words, 1 + named.words)
}

/// The query for a word on a path, whose page is at a place and its level after it.
fn word_of(tree: TreeName, words: &Words<'_>, place: usize) -> Option<Line>
    requires low { place ≤ 3 }
    ensures { result ≡ word_by words.now place tree }
{
    let page = number_at(words, place)?;
    let level = level_at(words, place + 1)?;
    Some(Line::Query(Query::Word { tree, page, level }))
}

/// `poke` of the tree of this name.
fn poke(name: &[u8], words: &Words<'_>) -> Option<Asked>
    ensures { result ≡ option_map (of_poke_by words.now) (named (tree_names words.now) name.now) }
{
    let named = tree_name(name, words)?;
    Some(Asked {
        verb: Verb::Poke,
        words: 4 + named.words,
        line: poke_line(named, words),
    })
}

fn poke_line(named: NamedTree, words: &Words<'_>) -> Option<Line>
    requires few { named.words ≤ 2 }
    ensures { result ≡ option_and_then (poke_by words.now (1 + named.words)) named.tree }
{
    poke_of(named.tree?, words, 1 + named.words)
}

/// The poke whose page is at a place, its level after it, and its word after that.
fn poke_of(tree: TreeName, words: &Words<'_>, place: usize) -> Option<Line>
    requires low { place ≤ 3 }
    ensures { result ≡ poke_by words.now place tree }
{
    let poked = number_at(words, place)?;
    let level = level_at(words, place + 1)?;
    let word = number_at(words, place + 2)?;
    Some(Line::Poke(Poke {
        tree,
        page: poked,
        level,
        word,
    }))
}

/// The tree of this name. A guest's has two words: `guest` and its slot.
fn tree_name(name: &[u8], words: &Words<'_>) -> Option<NamedTree>
    ensures value { result ≡ named (tree_names words.now) name.now }
    ensures few { IfSome result (λ n. n.words ≤ 2) }
{
    if is_name(name, b"host") {
        Some(NamedTree {
            words: 1,
            tree: Some(TreeName::Host),
        })
    } else if is_name(name, b"hyp") {
        Some(NamedTree {
            words: 1,
            tree: Some(TreeName::Hyp),
        })
    } else if is_name(name, b"guest") {
        Some(NamedTree {
            words: 2,
            tree: slot_at(words, 2).map(TreeName::Guest),
        })
    } else {
        None
    }
}

/// `show` of the tree of this name.
fn show(name: &[u8], words: &Words<'_>) -> Option<Asked>
    ensures { result ≡ option_map of_show_by (named (tree_names words.now) name.now) }
{
    let named = tree_name(name, words)?;
    Some(Asked {
        verb: Verb::Query,
        words: 1 + named.words,
        line: named.tree.map(|tree| Line::Query(Query::Show(tree))),
    })
}

/// `free` of the pool of this name.
fn pool(name: &[u8], words: &Words<'_>) -> Option<Asked>
    ensures { result ≡ named (pools_by words.now) name.now }
{
    if is_name(name, b"shared") {
        Some(Asked {
            verb: Verb::Query,
            words: 2,
            line: Some(Line::Query(Query::FreeShared)),
        })
    } else if is_name(name, b"guest") {
        Some(Asked {
            verb: Verb::Query,
            words: 3,
            line: slot_at(words, 2).map(|slot| Line::Query(Query::FreeGuest(slot))),
        })
    } else {
        None
    }
}

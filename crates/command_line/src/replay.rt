//! The words of `fail_replay`.
ghost use Rattle.std.specs.Prelude.{◌≡◌, ◌+◌, ◌≤◌, ◌<◌, ◌^◌, IfOk, Some, None, Err, drop, length, map, string_bytes};
ghost use Rattle.std.specs.List.{prefix_len};
ghost use Rattle.command_line.specs.Line.{is_file_word};
ghost use Rattle.command_line.specs.Replay as spec;

use crate::line::{CaseLine, LineRefusal};
use crate::number::number_in;
use crate::words::{is_file_word, read_case_from};
use fs_model::Site;
use std::alloc::Global;

/// Which instructions of an injected run are shown.
#[derive(Clone, Copy, Debug, PartialEq, Eq)]
pub enum View {
    /// Those from the flip on.
    FromFlip,
    /// All instructions.
    Whole,
    /// None.
    Brief,
}

/// The meaning of the words of `fail_replay`.
#[derive(Drop)]
pub struct ReplayLine<'w> {
    /// IMAGE and the words of the sites, as files, and the options of the case.
    pub case: CaseLine<'w>,
    pub view: View,
    /// The sites, at least one.
    pub sites: Vec<Site>,
}

fn view_named(word: &str) -> Option<View>
    ensures { result ≡ spec.view_named word.now }
{
    if word == "--whole" {
        Some(View::Whole)
    } else if word == "--brief" {
        Some(View::Brief)
    } else {
        None
    }
}

// Returns the view that the word after the program's name asks for, if it names one.
fn view_in(words: &[String]) -> Option<View>
    ensures { result ≡ spec.view_in (map string_bytes words.now) }
{
    let word = words.get(1)?;
    view_named(word.as_str())
}

// Returns the words after the first `place` words.
fn words_behind<'w>(place: usize, words: &'w [String]) -> &'w [String]
    requires { place ≤ 2 }
    ensures value { map string_bytes result.now ≡ drop place (map string_bytes words.entry.now) }
    ensures room { place + length result.now < 2 ^ 64 }
{
    if place <= words.len() {
        let (_, behind) = words.split_at(place);
        behind
    } else {
        &[]
    }
}

// Returns the number of words at the front that can name a file.
fn file_words(words: &[String]) -> usize
    ensures value { result ≡ prefix_len is_file_word (map string_bytes words.now) }
    ensures few { result ≤ length words.now }
{
    words
        .iter()
        .take_while(|word| is_file_word(word.as_str()))
        .count()
}

fn site_in(cycle: &str, cell: &str, bit: &str) -> Option<Site>
    ensures { result ≡ spec.site_in cycle.now cell.now bit.now }
{
    Some(Site {
        cycle: number_in(0, u32::MAX as u64, cycle)? as u32,
        cell: number_in(0, u32::MAX as u64, cell)? as u32,
        bit: number_in(0, u8::MAX as u64, bit)? as u8,
    })
}

// Returns the sites that the words name.
fn sites_in(alloc: Global, words: &[String]) -> Result<Vec<Site>, LineRefusal>
    ensures ok { IfOk result (λ sites. spec.sites_in (map string_bytes words.now) ≡ Some sites.items) }
    ensures usage { result ≡ Err LineRefusal.Usage → spec.sites_in (map string_bytes words.now) ≡ None }
{
    let mut sites = Vec::new(alloc);
    let mut rest = words;
    'sites: while let [cycle, cell, bit, behind @ ..] = rest {
        let Some(site) = site_in(cycle.as_str(), cell.as_str(), bit.as_str()) else {
            return Err(LineRefusal::Usage);
        };
        if sites.push(site).is_err() {
            return Err(LineRefusal::NoMemory);
        }
        rest = behind;
    }
    if rest.is_empty() {
        Ok(sites)
    } else {
        Err(LineRefusal::Usage)
    }
}

// Returns the number of words before IMAGE.
fn image_place(view: Option<View>) -> usize
    ensures value { result ≡ spec.image_place view }
    ensures few { result ≤ 2 }
{
    match view {
        Some(_) => 2,
        None => 1,
    }
}

/// Reads the words of `fail_replay`, of which the first is its name: optionally `--whole` or `--brief`, then
/// IMAGE, then CYCLE, CELL and BIT of each site, and then the options of a case.
///
/// # Errors
///
/// `Usage` if the words are not a valid line, and `NoMemory` if memory is refused.
pub fn read_replay<'w>(alloc: Global, words: &'w [String]) -> Result<ReplayLine<'w>, LineRefusal>
    ensures ok { IfOk result (λ l. spec.replay_line (map string_bytes words.entry.now) ≡ Some (spec.replay_data l)) }
    ensures usage { result ≡ Err LineRefusal.Usage → spec.replay_line (map string_bytes words.entry.now) ≡ None }
{
    let view = view_in(words);
    let place = image_place(view);
    let count = file_words(words_behind(place, words));
    let case = match read_case_from(alloc, place, count, words) {
        Ok(case) => case,
        Err(refusal) => return Err(refusal),
    };
    let [_, named @ ..] = case.files else {
        return Err(LineRefusal::Usage);
    };
    if named.is_empty() {
        return Err(LineRefusal::Usage);
    }
    let sites = match sites_in(alloc, named) {
        Ok(sites) => sites,
        Err(refusal) => return Err(refusal),
    };
    Ok(ReplayLine {
        case,
        view: view.unwrap_or(View::FromFlip),
        sites,
    })
}

//! The rules of Linux that a script names.
ghost use Rattle.std.specs.Prelude.{◌≡◌, ◌≤◌, IfOk};
ghost use Rattle.shm_text.specs.Rules.{once, first_rules, last_rules, named_rules, rules_word};

use crate::fault::FaultKind;
use crate::operand::{names, times};
use crate::words::is_word;
use bitflags::Flags;
use shm_base::Rules;

// How often a comma-separated list has a name, which is at most once.
fn once(word: &[u8], name: &[u8]) -> Result<u16, FaultKind>
    ensures value { result ≡ once word.now name.now }
    ensures few { IfOk result (λ n. n ≤ 1) }
{
    match times(word, name) {
        0 => Ok(0),
        1 => Ok(1),
        _ => Err(FaultKind::BadLine),
    }
}

/// How many of some rules a list names, and their bits.
#[derive(Clone, Copy)]
struct Named {
    count: u16,
    bits: u16,
}

#[tactic(auto, unfolding(crate::specs::Rules::first_rules))]
fn first_rules(word: &[u8]) -> Result<Named, FaultKind>
    ensures value { result ≡ first_rules word.now }
    ensures few { IfOk result (λ n. (n.count ≤ 6) × (n.bits ≤ 63)) }
{
    let removed = once(word, b"removed_is_invalid")?;
    let execute = once(word, b"execute_is_asked")?;
    let fork = once(word, b"fork_marks")?;
    let rest = once(word, b"rest_is_attached")?;
    let end = once(word, b"end_is_enomem")?;
    let low = once(word, b"low_is_eperm")?;
    Ok(Named {
        count: removed + execute + fork + rest + end + low,
        bits: removed + 2 * execute + 4 * fork + 8 * rest + 16 * end + 32 * low,
    })
}

#[tactic(auto, unfolding(crate::specs::Rules::last_rules))]
fn last_rules(word: &[u8]) -> Result<Named, FaultKind>
    ensures value { result ≡ last_rules word.now }
    ensures few { IfOk result (λ n. (n.count ≤ 5) × (n.bits ≤ 1984)) }
{
    let user = once(word, b"no_last_user")?;
    let pieces = once(word, b"pieces_are_enomem")?;
    let locks = once(word, b"locks_by_user")?;
    let exec = once(word, b"exec_is_asked")?;
    let huge = once(word, b"huge_is_refused")?;
    Ok(Named {
        count: user + pieces + locks + exec + huge,
        bits: 64 * user + 128 * pieces + 256 * locks + 512 * exec + 1024 * huge,
    })
}

// The rules in a comma-separated list, which has each name at most once.
#[tactic(auto, unfolding(crate::specs::Rules::named_rules))]
fn named_rules(word: &[u8]) -> Result<Rules, FaultKind>
    ensures { result ≡ named_rules word.now }
{
    let first = first_rules(word)?;
    let last = last_rules(word)?;
    let count = first.count + last.count;
    if names(word) != count as usize {
        return Err(FaultKind::BadLine);
    }
    Ok(Rules::from_bits_retain(first.bits + last.bits))
}

/// A word that has to be `linux`, which is every rule, or a list of rules.
pub(crate) fn rules_word(word: &[u8]) -> Result<Rules, FaultKind>
    ensures { result ≡ rules_word word.now }
{
    if is_word(word, b"linux") {
        return Ok(Rules::LINUX);
    }
    named_rules(word)
}

// The cockpit tile profile (request M-111): the rules that need no decoding (rules), those that the picture call decides (both), the call.
#![tactic(auto)]

mod both;
mod rules;

ghost use Rattle.std.specs.Prelude.{◌≡◌};
ghost use Rattle.lent.specs.Memory.{memory_of};
ghost use Rattle.choices.specs.Choices.{call_of};
ghost use Rattle.profile.specs.Profile.{profiled, profile_of, profile_rule_of, profile_block_of, profile_number_of};

use crate::both::decoded;
use crate::rules::{header_rules, tile_rules};
use choices::answer::Refusal;
use choices::checks::refusal;
use lent::sizes::Sizes;
use picture::decode;
use tile::Tile;

// Why a tile does not fit: the first rule that fails, 1 to 5, or 6 with the first macroblock that is both skipped and small; or an
// argument was refused.
#[derive(Clone, Copy, Debug, PartialEq, Eq)]
pub enum Misfit {
    Rule(u32),
    Macroblock(usize),
    Refused(Refusal),
}

// It fits, or why not.
pub type Profiled = Result<(), Misfit>;

// The rule that fails, 0 where none does or an argument was refused.
pub fn rule_failed(answer: Profiled) -> u32
    ensures { result ≡ profile_rule_of answer }
{
    match answer {
        Ok(()) => 0,
        Err(Misfit::Rule(n)) => n,
        Err(Misfit::Macroblock(_)) => 6,
        Err(Misfit::Refused(_)) => 0,
    }
}

// The macroblock that rule 6 names, else 0.
pub fn macroblock_named(answer: Profiled) -> usize
    ensures { result ≡ profile_block_of answer }
{
    match answer {
        Ok(()) => 0,
        Err(Misfit::Rule(_)) => 0,
        Err(Misfit::Macroblock(k)) => k,
        Err(Misfit::Refused(_)) => 0,
    }
}

// The number of the argument check that fails, 0 where none does.
pub fn number(answer: Profiled) -> u32
    ensures { result ≡ profile_number_of answer }
{
    match answer {
        Ok(()) => 0,
        Err(Misfit::Rule(_)) => 0,
        Err(Misfit::Macroblock(_)) => 0,
        Err(Misfit::Refused(refusal)) => refusal.number(),
    }
}

// Whether a tile fits. Lent is what the picture call is lent, which is made where rules 1 to 4 hold and no argument is refused.
pub fn profile(
    bytes: &[u8],
    tile: Tile,
    header: &[i32],
    y: &mut [u8],
    u: &mut [u8],
    v: &mut [u8],
    columns: &mut [u8],
    modes: &mut [u8],
    strengths: &mut [u8],
) -> Profiled
    ensures { profiled result
        (memory_of y.new u.new v.new columns.new modes.new strengths.new)
        ≡ profile_of (call_of bytes.now tile header.now)
        (memory_of y.old u.old v.old
        columns.old modes.old strengths.old) }
{
    let early = tile_rules(tile);
    if early != 0 {
        return Err(Misfit::Rule(early));
    }
    let sizes = Sizes {
        y: y.len(),
        u: u.len(),
        v: v.len(),
        columns: columns.len(),
        modes: modes.len(),
        strengths: strengths.len(),
    };
    if let Err(bad) = refusal(bytes, tile, header, sizes) {
        return Err(Misfit::Refused(bad));
    }
    let late = header_rules(header);
    if late != 0 {
        return Err(Misfit::Rule(late));
    }
    let d = decode(
        bytes,
        tile,
        header,
        y,
        u,
        v,
        columns,
        &mut modes[..],
        strengths,
    );
    let answer = d.answer;
    decoded(answer, modes)
}

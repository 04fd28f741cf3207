// The tokens of numbers above one over a wide reader (RFC 6386, section 13.2): coeff_tree from node 3 on, by tests, filled once.
ghost use Rattle.std.specs.Prelude.{◌≡◌, ℕ, suc, ◌+◌, ◌<◌, ◌≤◌, true, false, length};
ghost use Rattle.numbers.specs.Flags.{bit_of};
ghost use Rattle.reader.specs.declared.trees.Branch.TheVariants as B;
ghost use Rattle.reader.specs.Trees.{walk, branch_at_of};
ghost use Rattle.reader.specs.Token.{token_tree, eleven_at};
ghost use Rattle.wide.specs.WideRuns.{WideReads};
ghost use Rattle.residual.specs.Symbols.{norms_of, Ranged};

use crate::symbols::{bit, even};
use wide::wide::Wide;

// A token, and the reader after it.
#[derive(Clone, Copy)]
pub(crate) struct Walked {
    pub token: u8,
    pub next: Wide,
}

fn leaf(low: u8, on: bool) -> u8
    requires { low < 100 }
    ensures { (result ≡ low + bit_of on) × ((low ≤ result) × (result ≤ low + 1)) }
{
    if on { low + 1 } else { low }
}

// Node i, which has two leaves.
fn last(s: &[u8], w: Wide, norms: &[u8; 510], table: &[u8], at: usize, i: usize, low: u8) -> Walked
    requires at_in_bounds { (at + 11 ≤ length table.now) × (i < 11) × (low < 100) }
    requires false_value { (branch_at_of token_tree i false ≡ B.Leaf low) × (branch_at_of token_tree i true ≡ B.Leaf (low + 1)) }
    requires norms_value { (norms.now ≡ norms_of) × Ranged w }
    ensures { ((m : ℕ) → WideReads s.now 8 0 (walk (suc m) (eleven_at table.now at) token_tree i) w
        result.token result.next) × (((low ≤ result.token) × (result.token ≤ low + 1)) × Ranged result.next) }
{
    let a = even(w, norms, table[at + i]);
    let x = a.next;
    Walked {
        token: leaf(low, a.on),
        next: x,
    }
}

// From node 6, with 22 bits loaded: the categories.
fn category(s: &[u8], w: Wide, norms: &[u8; 510], table: &[u8], at: usize) -> Walked
    requires at_in_bounds { at + 11 ≤ length table.now }
    requires norms_value { (norms.now ≡ norms_of) × Ranged w }
    ensures { ((m : ℕ) → WideReads s.now 22 0 (walk (suc (suc (suc m))) (eleven_at table.now at) token_tree 6) w
        result.token result.next) × (((6 ≤ result.token) × (result.token < 12)) × Ranged result.next) }
{
    let a = bit(w, norms, table[at + 6]);
    let x = a.next;
    if a.on {
        let b = bit(x, norms, table[at + 8]);
        let y = b.next;
        if b.on {
            return last(s, y, norms, table, at, 10, 10);
        }
        return last(s, y, norms, table, at, 9, 8);
    }
    last(s, x, norms, table, at, 7, 6)
}

// From node 3: two to four, and the categories.
pub(crate) fn above(s: &[u8], w: Wide, norms: &[u8; 510], table: &[u8], at: usize) -> Walked
    requires at_in_bounds { at + 11 ≤ length table.now }
    requires norms_value { (norms.now ≡ norms_of) × Ranged w }
    ensures { ((m : ℕ)
        → WideReads s.now 0 4 (walk (suc (suc (suc (suc m)))) (eleven_at table.now at) token_tree 3)
        w result.token result.next) × (((3 ≤ result.token) × (result.token < 12)) × Ranged result.next) }
{
    let v = w.fill(s);
    let a = bit(v, norms, table[at + 3]);
    let x = a.next;
    if a.on {
        return category(s, x, norms, table, at);
    }
    let b = bit(x, norms, table[at + 4]);
    let y = b.next;
    if b.on {
        return last(s, y, norms, table, at, 5, 4);
    }
    Walked { token: 3, next: y }
}

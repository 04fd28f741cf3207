// The tokens of a block, read and written again (RFC 6386, section 13.2).
ghost use Rattle.std.specs.Prelude.{◌≡◌, ◌+◌, ◌<◌, ◌≤◌, length};
ghost use Rattle.coefficients.specs.Block.{magnitude};
ghost use Rattle.reader.specs.Extra.{extra};
ghost use Rattle.reader.specs.Token.{token, eleven_at};
ghost use Rattle.recode.specs.Copies.{Copies, same, nothing};
ghost use Rattle.recode.specs.TokenCopies.{leads, led_to, From, Rest};

use crate::pipe::{Pipe, ask};
use coefficients::block::{CAT1, CAT2, CAT3, CAT4, CAT5, CAT6};

// Where each entry of coeff_tree leads: a node, or 11 and the token.
pub(crate) const LEADS: [u8; 22] = [
    11, 1, 12, 2, 13, 3, 4, 6, 14, 5, 15, 16, 7, 8, 17, 18, 9, 10, 19, 20, 21, 22,
];

// A token, and the pipe after it.
#[derive(Clone, Copy)]
pub(crate) struct TokenCopied {
    pub token: u8,
    pub next: Pipe,
}

// Where the bit leads from a node. The table is made once a block and lent: a constant array is written to the stack at each use.
fn lead(tree: &[u8; 22], node: usize, bit: bool) -> usize
    requires tree_value { tree.now ≡ leads }
    requires node_bound { node < 11 }
    ensures { (result ≡ led_to node bit) × (node < result) × (result < 23) }
{
    usize::from(tree[node + node + usize::from(bit)])
}

// A number's token, from node 2 on.
fn copy_number(
    s: &[u8],
    p: Pipe,
    out: &mut [u8],
    table: &[u8],
    tree: &[u8; 22],
    at: usize,
) -> TokenCopied
    requires tree_value { tree.now ≡ leads }
    requires at_in_bounds { at + 11 ≤ length table.now }
    ensures { From s.now (eleven_at table.now at) 2 p out.old result.token result.next out.new
        × (result.token < 12) }
{
    let mut next = p;
    let mut i = 2;
    // Stays a while: i goes down the tree, not by one.
    while i < 11 {
        let a = ask(s, next, out, table[at + i]);
        i = lead(tree, i, a.bit);
        next = a.next;
    }
    TokenCopied {
        token: (i - 11) as u8,
        next,
    }
}

// A zero or a number, from node 1 on.
fn copy_value(
    s: &[u8],
    p: Pipe,
    out: &mut [u8],
    table: &[u8],
    tree: &[u8; 22],
    at: usize,
) -> TokenCopied
    requires tree_value { tree.now ≡ leads }
    requires at_in_bounds { at + 11 ≤ length table.now }
    ensures { From s.now (eleven_at table.now at) 1 p out.old result.token result.next out.new
        × (result.token < 12) }
{
    let z = ask(s, p, out, table[at + 1]);
    let x = z.next;
    if !z.bit {
        return TokenCopied { token: 1, next: x };
    }
    copy_number(s, x, out, table, tree, at)
}

// One token, its eleven probabilities from `at` on in the table; after a zero the block does not end. The end and a zero, the most frequent
// tokens, are found by tests and not by the table.
pub(crate) fn copy_token(
    s: &[u8],
    p: Pipe,
    out: &mut [u8],
    table: &[u8],
    tree: &[u8; 22],
    at: usize,
    zero: bool,
) -> TokenCopied
    requires tree_value { tree.now ≡ leads }
    requires at_in_bounds { at + 11 ≤ length table.now }
    ensures { Copies same (token (eleven_at table.now at) zero) s.now p out.old
        result.token result.next out.new × (result.token < 12) }
{
    if zero {
        return copy_value(s, p, out, table, tree, at);
    }
    let e = ask(s, p, out, table[at]);
    let x = e.next;
    if !e.bit {
        return TokenCopied { token: 0, next: x };
    }
    copy_value(s, x, out, table, tree, at)
}

// As many bits as there are probabilities.
fn copy_extra(s: &[u8], p: Pipe, out: &mut [u8], probs: &[u8]) -> Pipe
    ensures { Copies nothing (extra probs.now) s.now p out.old tt result out.new }
{
    let mut next = p;
    for prob in probs {
        let a = ask(s, next, out, *prob);
        next = a.next;
    }
    next
}

// The extra bits of a token 6..11.
fn copy_category(s: &[u8], p: Pipe, out: &mut [u8], token: u8) -> Pipe
    requires { (6 ≤ token) × (token ≤ 11) }
    ensures { Copies nothing (magnitude token) s.now p out.old tt result out.new }
{
    match token {
        6 => copy_extra(s, p, out, &CAT1),
        7 => copy_extra(s, p, out, &CAT2),
        8 => copy_extra(s, p, out, &CAT3),
        9 => copy_extra(s, p, out, &CAT4),
        10 => copy_extra(s, p, out, &CAT5),
        _ => copy_extra(s, p, out, &CAT6),
    }
}

// The extra bits of a token 2..11.
fn copy_magnitude(s: &[u8], p: Pipe, out: &mut [u8], token: u8) -> Pipe
    requires { (2 ≤ token) × (token ≤ 11) }
    ensures { Copies nothing (magnitude token) s.now p out.old tt result out.new }
{
    if token < 6 {
        return p;
    }
    copy_category(s, p, out, token)
}

// What follows a token 1..11: after a zero nothing, else its extra bits and its sign.
pub(crate) fn copy_rest(s: &[u8], p: Pipe, out: &mut [u8], token: u8) -> Pipe
    requires { (1 ≤ token) × (token ≤ 11) }
    ensures { Rest s.now p out.old token result out.new }
{
    if token == 1 {
        return p;
    }
    let m = copy_magnitude(s, p, out, token);
    let a = ask(s, m, out, 128);
    a.next
}

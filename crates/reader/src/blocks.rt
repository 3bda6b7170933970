// The tests of the blocks: refusals 1, 2, 3 and 5, and 9 of the rest of the last block.
ghost use Rattle.std.specs.Prelude.{◌≡◌, ℕ, ◌-◌, Bool};
ghost use Rattle.model.specs.Base.{first_from};
ghost use Rattle.model.specs.Verdict.{refuse_if, tested};
ghost use Rattle.model.specs.GrammarFile.{wrong_length, wrong_check, wrong_block, wrong_count, wrong_blocks, wrong_rest, records_in, blocks_for};

use grammar::{block_check, byte, fields, four_bytes, rules, two_bytes, zeros};
use model::Refusal;

// Refusal 1: the length is not 512 times 1 to 14.
pub fn wrong_length(file: &[u8]) -> bool
    ensures { result ≡ wrong_length file.now }
{
    let blocks = file.len() / 512;
    file.len() % 512 != 0 || !(1..=14).contains(&blocks)
}

// Refusal 2 of block k: the check is wrong.
pub fn wrong_check(file: &[u8], k: u16) -> bool
    ensures { result ≡ wrong_check file.now k }
{
    let from = 512 * usize::from(k);
    block_check(fields(file, from, 508)) != four_bytes(file, from + 508)
}

// Refusal 3 of block k: its number or its kind is wrong.
pub fn wrong_block(file: &[u8], k: u16) -> bool
    ensures { result ≡ wrong_block file.now k }
{
    let from = 512 * usize::from(k);
    let kind = if k == 0 { 1 } else { 2 };
    two_bytes(file, from) != k || byte(file, from + 2) != kind
}

// How many records rule block k holds, of so many rules.
pub fn records_in(rules: u16, k: u16) -> usize
    ensures { result ≡ records_in rules k }
{
    let all = usize::from(rules);
    let block = usize::from(k);
    if 21 * block < all {
        21
    } else {
        all.saturating_sub(21 * block.saturating_sub(1))
    }
}

// Refusal 5 of rule block k: its record count is wrong.
pub fn wrong_count(file: &[u8], k: u16) -> bool
    ensures { result ≡ wrong_count file.now k }
{
    usize::from(byte(file, 512 * usize::from(k) + 3)) != records_in(rules(file), k)
}

// The refusal of that number at the first of the blocks `from` to n - 1 that the test meets, if it meets one.
pub fn blocks_refusal<F: Fn(u16) -> bool>(
    from: u16,
    n: u16,
    number: u8,
    meets: F,
) -> Result<(), Refusal>
    requires { F.IsAlwaysCallable meets }
    ensures { (test : ℕ → Bool) → ((k : ℕ) (r : Bool) → F.post meets k r → r ≡ test k)
        → result ≡ tested (first_from (λ k. refuse_if (test k) (Refusal.Grammar number k)) from (n - from)) }
{
    for k in from..n {
        if meets(k) {
            return Err(Refusal::Grammar(number, k));
        }
    }
    Ok(())
}

// How many blocks so many rules take.
pub fn blocks_for(rules: u16) -> usize
    ensures { result ≡ blocks_for rules }
{
    1 + (usize::from(rules) + 20) / 21
}

// Refusal 5 at place 0: the number of blocks is wrong.
pub fn wrong_blocks(file: &[u8]) -> bool
    ensures { result ≡ wrong_blocks file.now }
{
    file.len() / 512 != blocks_for(rules(file))
}

// Refusal 9 at place R: the rest of the last block is not 0.
pub fn wrong_rest(file: &[u8]) -> bool
    ensures { result ≡ wrong_rest file.now }
{
    let from = 512 * (file.len() / 512).saturating_sub(1);
    let used = 4 + 24 * usize::from(byte(file, from + 3));
    !zeros(file, from + used, 508usize.saturating_sub(used))
}

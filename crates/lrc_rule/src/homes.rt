ghost use Rattle.std.specs.Prelude.{◌≡◌, ◌<◌, ◌≤◌, ◌%◌};
ghost use Rattle.lrc_rule.specs.Home.{home_of};

use lrc_store::Handle;

/// The remainder, by a mask where the divisor is a power of two.
#[tactic(auto, using(crate::proofs::Masks::masked))]
fn remainder(value: u64, divisor: u64) -> u64
    requires { 1 ≤ divisor }
    ensures value { result ≡ value % divisor }
    ensures within { result < divisor }
{
    if divisor.is_power_of_two() {
        value & (divisor - 1)
    } else {
        value % divisor
    }
}

/// The first place at which a row with these three words is sought, among so many buckets, of which
/// there is at least 1.
#[tactic(auto, unfolding(crate::specs::Home::home_of))]
pub fn home(tag: u64, left: u64, right: u64, buckets: u64) -> u64
    requires { 1 ≤ buckets }
    ensures value { result ≡ home_of tag left right buckets }
    ensures within { result < buckets }
{
    let first = tag
        .wrapping_mul(11_400_714_819_323_198_485)
        .wrapping_add(left);
    let second = (first ^ (first >> 29))
        .wrapping_mul(13_787_848_793_156_543_929)
        .wrapping_add(right);
    remainder(second ^ (second >> 32), buckets)
}

/// The place of the memo word of a call, among so many, of which there is at least 1.
pub fn place(call: Handle, memo: u32) -> u32
    requires { 1 ≤ memo }
    ensures { result ≡ call.0 % memo }
{
    call.0 % memo
}

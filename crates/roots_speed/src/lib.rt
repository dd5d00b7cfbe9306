// The roots for Rust to call: loops that `compare/speed/speed.rs` times beside Rust's own, each with a
// sum of the results, and single calls, which `compare/speed/all.rs` holds to Rust's.
#![tactic(auto)]

ghost use Rattle.std.specs.Prelude.{◌≡◌, ◌+◌, ◌*◌, ◌<◌, ◌≤◌, from_bits, to_bits};
ghost use Rattle.std.specs.Float.{sqrt, binary32};
ghost use Rattle.roots.specs.Roots.{cbrt};

use std::num::{f32_from_bits_with_nan, f32_to_bits_with_nan};

fn step(s: u64) -> u64 {
    s.wrapping_mul(6364136223846793005)
        .wrapping_add(1442695040888963407)
}

// Floats from 2^-63 up to below 2^65.
fn input(s: u64) -> f32 {
    f32_from_bits_with_nan(((s >> 33) % 0x4000_0000 + 0x2000_0000) as u32)
}

fn signed(s: u64) -> f32 {
    let x = input(s);
    if (s >> 40) % 2 == 0 { x } else { -x }
}

// Apart from `input`: with the divisor as a parameter the timed loop takes four instructions more.
fn subnormal(s: u64) -> f32 {
    f32_from_bits_with_nan(((s >> 33) % 0x80_0000) as u32)
}

fn bits(x: f32) -> u64 {
    u64::from(f32_to_bits_with_nan(x))
}

// The sum of the results at `count` pseudorandom numbers; there is no list of them to go over.
#[inline(always)]
fn sum_of<F: Fn(u64) -> u64>(count: u32, result_at: F) -> u64
    requires { F.IsAlwaysCallable result_at }
{
    let mut s: u64 = 42;
    let mut sum: u64 = 0;
    for _ in 0..count {
        s = step(s);
        sum = sum.wrapping_add(result_at(s));
    }
    sum
}

// A C function each, of the same shape: C calls them by name.

#[unsafe(no_mangle)]
pub extern "C" fn rattle_nothing(count: u32) -> u64 {
    sum_of(count, |s| bits(input(s)))
}

#[unsafe(no_mangle)]
pub extern "C" fn rattle_sqrt(count: u32) -> u64 {
    sum_of(count, |s| bits(roots::sqrt_f32(input(s))))
}

#[unsafe(no_mangle)]
pub extern "C" fn rattle_cbrt(count: u32) -> u64 {
    sum_of(count, |s| bits(roots::cbrt_f32(input(s))))
}

#[unsafe(no_mangle)]
pub extern "C" fn rattle_cbrt_signs(count: u32) -> u64 {
    sum_of(count, |s| bits(roots::cbrt_f32(signed(s))))
}

#[unsafe(no_mangle)]
pub extern "C" fn rattle_sqrt_subnormal(count: u32) -> u64 {
    sum_of(count, |s| bits(roots::sqrt_f32(subnormal(s))))
}

#[unsafe(no_mangle)]
pub extern "C" fn rattle_cbrt_subnormal(count: u32) -> u64 {
    sum_of(count, |s| bits(roots::cbrt_f32(subnormal(s))))
}

#[unsafe(no_mangle)]
pub extern "C" fn rattle_whole_sqrt(count: u32) -> u64 {
    sum_of(count, |s| roots::whole_sqrt(s >> (s % 64)))
}

#[unsafe(no_mangle)]
pub extern "C" fn rattle_whole_cbrt(count: u32) -> u64 {
    sum_of(count, |s| roots::whole_cbrt(s >> (s % 64)))
}

#[unsafe(no_mangle)]
pub extern "C" fn rattle_sqrt_of(pattern: u32) -> u32
    ensures { result ≡ to_bits binary32 (sqrt binary32 (from_bits binary32 pattern)) }
{
    f32_to_bits_with_nan(roots::sqrt_f32(f32_from_bits_with_nan(pattern)))
}

#[unsafe(no_mangle)]
pub extern "C" fn rattle_cbrt_of(pattern: u32) -> u32
    ensures { result ≡ to_bits binary32 (cbrt binary32 (from_bits binary32 pattern)) }
{
    f32_to_bits_with_nan(roots::cbrt_f32(f32_from_bits_with_nan(pattern)))
}

#[unsafe(no_mangle)]
pub extern "C" fn rattle_whole_sqrt_of(n: u64) -> u64
    ensures { (result * result ≤ n) × (n < (result + 1) * (result + 1)) }
{
    roots::whole_sqrt(n)
}

#[unsafe(no_mangle)]
pub extern "C" fn rattle_whole_cbrt_of(n: u64) -> u64
    ensures { (result * result * result ≤ n) × (n < (result + 1) * (result + 1) * (result + 1)) }
{
    roots::whole_cbrt(n)
}

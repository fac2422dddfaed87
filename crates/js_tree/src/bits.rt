//! Flags as the bits of a number.

ghost use Rattle.std.specs.Prelude.{◌≡◌, ◌+◌, ◌*◌, ◌/◌, ◌<◌, ◌≤◌, ◌^◌};
ghost use Rattle.js_tree.specs.Bits as bits;
ghost use Rattle.js_tree.specs.Labels as labels;

use crate::flags::NodeFlags;

/// A bit before the bits of a number.
#[inline(always)]
fn with_bit(bit: bool, rest: u16) -> u16
    requires { rest < 2 ^ 15 }
    ensures value { result ≡ labels.with_bit bit rest }
    ensures small { result ≤ 2 * rest + 1 }
{
    if bit { 1 + 2 * rest } else { 2 * rest }
}

/// The number of flags, the first the lowest bit.
#[inline(always)]
pub(crate) fn bits_of(flags: NodeFlags) -> u16
    ensures number { result ≡ labels.number_of flags }
    ensures flags { bits.flags_of result ≡ flags }
{
    let bits = with_bit(flags.pife, 0);
    let bits = with_bit(flags.pure, bits);
    let bits = with_bit(flags.bare, bits);
    let bits = with_bit(flags.tail, bits);
    let bits = with_bit(flags.is_await, bits);
    let bits = with_bit(flags.is_static, bits);
    let bits = with_bit(flags.delegate, bits);
    let bits = with_bit(flags.generator, bits);
    let bits = with_bit(flags.is_async, bits);
    let bits = with_bit(flags.method, bits);
    let bits = with_bit(flags.shorthand, bits);
    let bits = with_bit(flags.computed, bits);
    let bits = with_bit(flags.optional, bits);
    with_bit(flags.prefix, bits)
}

/// The lowest bit of a number, which is taken off.
fn take_bit(rest: &mut u16) -> bool
    ensures bit { result ≡ bits.low rest.old }
    ensures rest { rest.new ≡ rest.old / 2 }
{
    let bit = *rest % 2 == 1;
    *rest /= 2;
    bit
}

/// The flags of a number.
pub(crate) fn flags_of(bits: u16) -> NodeFlags
    ensures { result ≡ Rattle.js_tree.specs.Bits.flags_of bits }
{
    let mut rest = bits;
    NodeFlags {
        prefix: take_bit(&mut rest),
        optional: take_bit(&mut rest),
        computed: take_bit(&mut rest),
        shorthand: take_bit(&mut rest),
        method: take_bit(&mut rest),
        is_async: take_bit(&mut rest),
        generator: take_bit(&mut rest),
        delegate: take_bit(&mut rest),
        is_static: take_bit(&mut rest),
        is_await: take_bit(&mut rest),
        tail: take_bit(&mut rest),
        bare: take_bit(&mut rest),
        pure: take_bit(&mut rest),
        pife: take_bit(&mut rest),
    }
}

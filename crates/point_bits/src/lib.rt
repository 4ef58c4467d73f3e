// A row of bits, 32 to an entry: whether one is set, and one more set.
#![tactic(auto)]

ghost use Rattle.std.specs.Prelude.{◌≡◌, ◌/◌, ◌<◌, length};
ghost use Rattle.point_bits.specs.Bits as by;

// Whether bit v is set.
pub fn is_set(bits: &[u32], v: usize) -> bool
    requires { v / 32 < length bits.now }
    ensures { result ≡ by.bit bits.now v }
{
    (bits[v / 32] >> (v % 32)) % 2 == 1
}

// Sets bit v.
pub fn set_bit(bits: &mut [u32], v: usize)
    requires { v / 32 < length bits.old }
    ensures { by.SetGives bits.old v bits.new }
{
    bits[v / 32] = bits[v / 32] | (1 << (v % 32));
}

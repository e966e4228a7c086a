// Buckets of the delta image.
#![tactic(auto)]

ghost use Rattle.std.specs.Prelude.{◌≡◌};
ghost use Rattle.delta_image.specs.Buckets.{bucket_of};

// The bucket of a point: the top six bits of a 16-bit product.
pub fn bucket(point: u16) -> usize
    ensures { result ≡ bucket_of point }
{
    usize::from(point.wrapping_mul(40_503) >> 10)
}

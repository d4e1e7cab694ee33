// The float functions.
ghost use Rattle.std.specs.Prelude.{◌≡◌};
ghost use Rattle.std.specs.Float.Ieee.{to_signed};
ghost use Rattle.float.specs.Root as Root;
ghost use Rattle.float.specs.Whole.{minimum, maximum, floor_of, ceil_of, times16};

#[unsafe(no_mangle)]
pub extern "C" fn float_sqrt(x: f32) -> f32
    ensures { result ≡ Root.sqrt x }
{
    float::root::sqrt(x)
}

#[unsafe(no_mangle)]
pub extern "C" fn float_floor(x: f32) -> f32
    ensures { result ≡ floor_of x }
{
    float::num::floor(x)
}

#[unsafe(no_mangle)]
pub extern "C" fn float_ceil(x: f32) -> f32
    ensures { result ≡ ceil_of x }
{
    float::num::ceil(x)
}

#[unsafe(no_mangle)]
pub extern "C" fn float_min(a: f32, b: f32) -> f32
    ensures { result ≡ minimum a b }
{
    float::num::min(a, b)
}

#[unsafe(no_mangle)]
pub extern "C" fn float_max(a: f32, b: f32) -> f32
    ensures { result ≡ maximum a b }
{
    float::num::max(a, b)
}

#[unsafe(no_mangle)]
pub extern "C" fn float_to_i16(x: f32) -> i16
    ensures { result ≡ to_signed 15 x }
{
    float::num::to_i16(x)
}

#[unsafe(no_mangle)]
pub extern "C" fn float_times_16(v: i16) -> i16
    ensures { result ≡ times16 v }
{
    float::num::wrapping_times_16(v)
}

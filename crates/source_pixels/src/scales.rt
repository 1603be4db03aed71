//! Values of components at the scale of 0 to 255.

ghost use Rattle.std.specs.Prelude.{◌≡◌, ◌+◌, ◌/◌, ◌^◌, true};
ghost use Rattle.source_pixels.specs.Formats.{fits, scaled, value_in};

use pixel_translate::Component;

/// A component with a factor by which numbers are divided by its greatest value: to multiply is quicker.
#[derive(Drop)]
pub(crate) struct Scale {
    pub at: Component,
    factor: u64,
    ghost fitting: { fits 32 at ≡ true },
    ghost factor_is: { factor ≡ 2 ^ 48 / at.max + 1 },
}

impl Scale {
    pub fn new(at: Component) -> Scale
        requires { fits 32 at ≡ true }
        ensures { result.at ≡ at }
    {
        Scale {
            at,
            factor: (1u64 << 48) / u64::from(at.max) + 1,
        }
    }

    /// Returns the component's value in the pixel `number`, at the scale of 0 to 255.
    pub fn value(&self, number: u32) -> u8
        ensures { result ≡ scaled self.now.at (value_in self.now.at number) }
    {
        let max = u64::from(self.at.max);
        let value = u64::from(number >> self.at.shift & u32::from(self.at.max));
        (((value * 255 + max / 2) * self.factor) >> 48) as u8
    }
}

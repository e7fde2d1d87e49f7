ghost use Rattle.std.specs.Prelude.{◌≡◌, ◌≤◌, ◌*◌, ◌^◌, ◌-◌, IfSome};
ghost use Rattle.cost_rule.specs.Stages.{IsCounted, more, no_digits};

/// The digits of a number that is being read.
#[derive(Clone, Copy)]
pub(crate) struct Digits {
    /// How many there are.
    pub(crate) count: u8,
    /// The number that they write.
    pub(crate) number: u64,
}

impl Digits {
    /// None yet.
    pub(crate) fn none() -> Digits
        ensures { result ≡ no_digits }
    {
        Digits {
            count: 0,
            number: 0,
        }
    }

    /// These and one more, if the byte is a digit and there are fewer than `most`.
    pub(crate) fn after(self, byte: u8, most: u8) -> Option<Digits>
        requires few { most ≤ 16 }
        requires counted { IsCounted most self }
        ensures next { result ≡ more most self byte }
        ensures counted { IfSome result (IsCounted most) }
    {
        if byte.is_ascii_digit() && self.count < most {
            Some(Digits {
                count: self.count + 1,
                number: self.number * 10 + u64::from(byte - b'0'),
            })
        } else {
            None
        }
    }

    /// The millionths that they write as a fraction.
    pub(crate) fn millionths(self) -> u128
        requires { IsCounted 6 self }
        ensures { result ≡ self.number * 10 ^ (6 - self.count) }
    {
        u128::from(self.number) * 10_u128.pow(6 - u32::from(self.count))
    }
}

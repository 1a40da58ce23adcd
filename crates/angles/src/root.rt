ghost use Rattle.std.specs.Prelude.{◌≡◌};
ghost use Rattle.angles.specs.Root.{raise, lift, settle, heron, root_in, root_of};

// A number scaled by powers of four, and what its root is multiplied by in the end.
#[derive(Clone, Copy)]
pub struct Scaled {
    pub square: f64,
    pub unit: f64,
}

impl Scaled {
    // Below the bound, up by a power of four; the root goes down by the power of two.
    #[tactic(auto, unfolding(crate::specs::Root::raise))]
    fn raised(self, bound: f64, up: f64, down: f64) -> Scaled
        ensures { result ≡ raise bound up down self }
    {
        if self.square < bound {
            Scaled {
                square: self.square * up,
                unit: self.unit * down,
            }
        } else {
            self
        }
    }

    // Into 2^-10 to 2^-2.
    #[tactic(auto, unfolding(crate::specs::Root::lift))]
    fn lifted(self) -> Scaled
        ensures { result ≡ lift self }
    {
        if self.square < 0.0009765625 {
            self.raised(3.725290298461914e-09, 67108864.0, 0.0001220703125)
                .raised(1.52587890625e-05, 16384.0, 0.0078125)
                .raised(0.0009765625, 256.0, 0.0625)
        } else {
            self
        }
    }

    // Into 2^-4 to 2^-2.
    #[tactic(auto, unfolding(crate::specs::Root::settle))]
    fn settled(self) -> Scaled
        ensures { result ≡ settle self }
    {
        if self.square < 0.0625 {
            self.raised(0.015625, 16.0, 0.25).raised(0.0625, 4.0, 0.5)
        } else {
            self
        }
    }

    #[tactic(auto, unfolding(crate::specs::Root::root_in))]
    fn root(self) -> f64
        ensures { result ≡ root_in self }
    {
        let z = self.square;
        let a = 0.136 + z * (2.0 - 2.2 * z);
        let b = heron_step(z, a);
        let c = heron_step(z, b);
        let y = heron_step(z, c);
        y * self.unit
    }
}

#[tactic(auto, unfolding(crate::specs::Root::heron))]
fn heron_step(z: f64, y: f64) -> f64
    ensures { result ≡ heron z y }
{
    0.5 * (y + z / y)
}

// The square root: meant for 0 and for 2^-54 to 1/4.
#[tactic(auto, unfolding(crate::specs::Root::root_of))]
pub fn root(z: f64) -> f64
    ensures { result ≡ root_of z }
{
    if z == 0.0 {
        return 0.0;
    }
    let s = Scaled {
        square: z,
        unit: 1.0,
    };
    s.lifted().settled().root()
}

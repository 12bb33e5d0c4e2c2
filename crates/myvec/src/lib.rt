// Positions and velocities: values whose sum, difference, scaling and product hand back a new one.
#![tactic(auto)]

ghost use Rattle.std.specs.Prelude.{◌≡◌};
ghost use Rattle.myvec.specs.Vec.{vec, vadd, vsub, vscale, vtimes, vover, vdot, along, bent};

#[derive(Clone, Copy)]
pub struct MyVec {
    pub x: f64,
    pub y: f64,
}

impl MyVec {
    pub fn new(x: f64, y: f64) -> Self
        ensures { result ≡ vec x y }
    {
        Self { x, y }
    }

    pub fn add(self, other: MyVec) -> Self
        ensures { result ≡ vadd self other }
    {
        Self {
            x: self.x + other.x,
            y: self.y + other.y,
        }
    }

    pub fn sub(self, other: MyVec) -> Self
        ensures { result ≡ vsub self other }
    {
        Self {
            x: self.x - other.x,
            y: self.y - other.y,
        }
    }

    // Each component times the factor.
    pub fn scaled(self, factor: f64) -> Self
        ensures { result ≡ vscale self factor }
    {
        Self {
            x: self.x * factor,
            y: self.y * factor,
        }
    }

    // The factor times each component.
    pub fn times(self, factor: f64) -> Self
        ensures { result ≡ vtimes factor self }
    {
        Self {
            x: factor * self.x,
            y: factor * self.y,
        }
    }

    pub fn over(self, factor: f64) -> Self
        ensures { result ≡ vover self factor }
    {
        Self {
            x: self.x / factor,
            y: self.y / factor,
        }
    }

    // The product, summed from the first.
    pub fn dot(self, other: MyVec) -> f64
        ensures { result ≡ vdot self other }
    {
        self.x * other.x + self.y * other.y
    }

    // The component in direction 0, or in any other.
    pub fn along(self, dim: usize) -> f64
        ensures { result ≡ along dim self }
    {
        if dim == 0 { self.x } else { self.y }
    }

    // The vector with another component in that direction.
    pub fn bent(self, dim: usize, value: f64) -> Self
        ensures { result ≡ bent dim value self }
    {
        if dim == 0 {
            Self { x: value, ..self }
        } else {
            Self { y: value, ..self }
        }
    }
}

//! Quantities: bandwidth in its two units, and the version of a configuration.

ghost use Rattle.std.specs.Prelude.{◌≡◌, ℕ, Some, decimal};

use std::fmt;
use std::marker::Model;

/// Bandwidth in units of 100 bit/s, both directions of a call together, as H.225.0 counts it.
#[derive(Clone, Copy, Debug, PartialEq, Eq, PartialOrd, Ord, Hash)]
pub struct Units(u32);

/// Bandwidth in kbit/s, as Cisco's `bandwidth` lines give it: each is ten `Units`.
#[derive(Clone, Copy, Debug, PartialEq, Eq, PartialOrd, Ord, Hash)]
pub struct Kbps(u32);

/// The number of a configuration that was put in force: 1 for the opening one, and one more with
/// each reload.
#[derive(Clone, Copy, Debug, PartialEq, Eq, PartialOrd, Ord, Hash)]
pub struct Version(u32);

impl Model for Units {
    ghost Value = { ℕ };

    ghost view = { λ u. u.0 };

    ghost inverse = { λ n. record { 0 = n } };
}

impl Model for Kbps {
    ghost Value = { ℕ };

    ghost view = { λ k. k.0 };

    ghost inverse = { λ n. record { 0 = n } };
}

impl Model for Version {
    ghost Value = { ℕ };

    ghost view = { λ v. v.0 };

    ghost inverse = { λ n. record { 0 = n } };
}

impl Units {
    /// So many units of 100 bit/s.
    pub fn new(units: u32) -> Units
        ensures { result ≡ units }
    {
        Units(units)
    }

    /// How many units of 100 bit/s.
    pub fn value(self) -> u32
        ensures { result ≡ self }
    {
        let Units(units) = self;
        units
    }
}

impl Kbps {
    /// So many kbit/s.
    pub fn new(kbps: u32) -> Kbps
        ensures { result ≡ kbps }
    {
        Kbps(kbps)
    }

    /// How many kbit/s.
    pub fn value(self) -> u32
        ensures { result ≡ self }
    {
        let Kbps(kbps) = self;
        kbps
    }
}

impl Version {
    /// The version of this number.
    pub fn new(number: u32) -> Version
        ensures { result ≡ number }
    {
        Version(number)
    }

    /// The number of the version.
    pub fn value(self) -> u32
        ensures { result ≡ self }
    {
        let Version(number) = self;
        number
    }
}

impl fmt::Display for Units {
    ghost output = { λ u. Some (decimal u) };

    fn fmt<W: fmt::Write>(&self, f: &mut fmt::Formatter<W>) -> fmt::Result {
        let units = self.value();
        write!(f, "{units}")
    }
}

impl fmt::Display for Kbps {
    ghost output = { λ k. Some (decimal k) };

    fn fmt<W: fmt::Write>(&self, f: &mut fmt::Formatter<W>) -> fmt::Result {
        let kbps = self.value();
        write!(f, "{kbps}")
    }
}

impl fmt::Display for Version {
    ghost output = { λ v. Some (decimal v) };

    fn fmt<W: fmt::Write>(&self, f: &mut fmt::Formatter<W>) -> fmt::Result {
        let number = self.value();
        write!(f, "{number}")
    }
}

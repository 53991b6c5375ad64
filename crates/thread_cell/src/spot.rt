/// One of the eight places of a table, as a type. `PLACE` is its number.
pub trait Spot {
    ghost use Rattle.std.specs.Prelude.{ℕ};

    ghost PLACE: { ℕ };

    const PLACE: usize;
}

/// Place 0.
pub struct Spot0;

impl Spot for Spot0 {
    ghost PLACE = { 0 };

    const PLACE: usize = 0;
}

/// Place 1.
pub struct Spot1;

impl Spot for Spot1 {
    ghost PLACE = { 1 };

    const PLACE: usize = 1;
}

/// Place 2.
pub struct Spot2;

impl Spot for Spot2 {
    ghost PLACE = { 2 };

    const PLACE: usize = 2;
}

/// Place 3.
pub struct Spot3;

impl Spot for Spot3 {
    ghost PLACE = { 3 };

    const PLACE: usize = 3;
}

/// Place 4.
pub struct Spot4;

impl Spot for Spot4 {
    ghost PLACE = { 4 };

    const PLACE: usize = 4;
}

/// Place 5.
pub struct Spot5;

impl Spot for Spot5 {
    ghost PLACE = { 5 };

    const PLACE: usize = 5;
}

/// Place 6.
pub struct Spot6;

impl Spot for Spot6 {
    ghost PLACE = { 6 };

    const PLACE: usize = 6;
}

/// Place 7.
pub struct Spot7;

impl Spot for Spot7 {
    ghost PLACE = { 7 };

    const PLACE: usize = 7;
}

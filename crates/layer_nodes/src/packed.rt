//! Numbers that may be missing, in the memory of the number alone: one of its values stands for none.

ghost use Rattle.std.specs.Prelude.{◌≡◌, ◌≢◌, ℕ, ◌<◌, ℤ, Option, IfSome};
ghost use Rattle.std.proofs.Common.{ap};
ghost use Rattle.layer_nodes.specs.Packed.{no_length, length_in, raw_length, length-back, no_place, place_in, raw_place, place-back};

use std::marker::Model;

/// The number that stands for no length.
const NO_LENGTH: i64 = i64::MIN;

/// The number that stands for no place.
const NO_PLACE: u32 = u32::MAX;

/// The length of a path or none, in one word.
#[derive(Clone, Copy, Debug)]
pub struct PackedLength {
    raw: i64,
}

impl Model for PackedLength {
    ghost Value = { Option ℤ };

    ghost view = { λ length. length_in length.raw };

    ghost inverse = { λ length. record { raw = raw_length length } };

    ghost inverse_ok = { λ a h. ap (λ n. record { raw = n }) (length-back a.raw) };
}

impl PackedLength {
    /// Holds the length, which is not the least number of its type.
    pub fn of(length: Option<i64>) -> Self
        requires { IfSome length (λ z. z ≢ no_length) }
        ensures { result ≡ length }
    {
        PackedLength {
            raw: length.unwrap_or(NO_LENGTH),
        }
    }

    /// The length that it holds.
    pub fn get(self) -> Option<i64>
        ensures { result ≡ self }
    {
        if self.raw == NO_LENGTH {
            return None;
        }
        Some(self.raw)
    }
}

/// A place in a layer or none, in half a word.
#[derive(Clone, Copy, Debug)]
pub struct PackedPlace {
    raw: u32,
}

impl Model for PackedPlace {
    ghost Value = { Option ℕ };

    ghost view = { λ place. place_in place.raw };

    ghost inverse = { λ place. record { raw = raw_place place } };

    ghost inverse_ok = { λ a h. ap (λ n. record { raw = n }) (place-back a.raw) };
}

impl PackedPlace {
    /// Holds the place, which is not the greatest number of its type.
    pub fn of(place: Option<u32>) -> Self
        requires { IfSome place (λ i. i < no_place) }
        ensures { result ≡ place }
    {
        PackedPlace {
            raw: place.unwrap_or(NO_PLACE),
        }
    }

    /// The place that it holds.
    pub fn get(self) -> Option<u32>
        ensures { result ≡ self }
    {
        if self.raw == NO_PLACE {
            return None;
        }
        Some(self.raw)
    }
}

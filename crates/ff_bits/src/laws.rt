//! Laws of the definitions of this crate. Each function does nothing, and its contract is the law.

ghost use Rattle.std.specs.Prelude.{◌≡◌, ℕ, ◌≤◌, ◌<◌, ◌^◌, ◌/◌, ◌%◌, List, Bool, [], ◌∷◌, ◌++◌, length};
ghost use Rattle.ff_bits.specs.Bits.{bits};
ghost use Rattle.ff_bits.specs.Crc.{crc8_of, crc16_of};
ghost use Rattle.ff_bits.specs.Number.{IsCode, IsPartOfCode, BeginsNoCode, shortest};
ghost use Rattle.ff_bits.specs.laws.Reads.{IsNumber};
ghost use Rattle.ff_bits.specs.Reading.{Done};
ghost use Rattle.ff_bits.specs.NumberGrammar.{coded_below, of_31_bits, of_36_bits};
ghost use Rattle.ff_bits.specs.laws.Pieces.{Piece, AreWritable, AreRead, written_pieces, values_in};

/// Values and coded numbers are read back as they were written one after the other, in any number and order. Nothing
/// else can be read.
pub fn what_was_written_is_read()
    ensures read { (pieces : List Piece) (after : List Bool) → AreWritable pieces → AreRead pieces (written_pieces pieces ++ after) (values_in pieces) after }
    ensures only { (pieces : List Piece) (after rest : List Bool) (values : List ℕ) → AreWritable pieces → AreRead pieces (written_pieces pieces ++ after) values rest → (values ≡ values_in pieces) × (rest ≡ after) }
{}

/// Bits begin with one coded number at most, and where they do they are no part of one.
pub fn coded_numbers_are_apart()
    ensures one { (bits rest other : List Bool) (v w : ℕ) → IsNumber bits v rest → IsNumber bits w other → (v ≡ w) × (rest ≡ other) }
    ensures whole { (bits rest : List Bool) (v : ℕ) → IsNumber bits v rest → IsPartOfCode bits → ⊥ }
    ensures some { (bits : List Bool) → IsPartOfCode bits → BeginsNoCode bits → ⊥ }
{}

/// The coded numbers with a first byte below 11111110 are those of at most 31 bits. Those with a first byte below
/// 11111111 are those of at most 36. A value that is read has no more bits. Each value of so many is read from its
/// shortest form.
pub fn coded_numbers_have_31_or_36_bits()
    ensures few_31 { (bits rest : List Bool) (v : ℕ) → coded_below of_31_bits bits ≡ Done v rest → v < 2 ^ 31 }
    ensures all_31 { (v : ℕ) (rest : List Bool) → v < 2 ^ 31 → coded_below of_31_bits (shortest v ++ rest) ≡ Done v rest }
    ensures few_36 { (bits rest : List Bool) (v : ℕ) → coded_below of_36_bits bits ≡ Done v rest → v < 2 ^ 36 }
    ensures all_36 { (v : ℕ) (rest : List Bool) → v < 2 ^ 36 → coded_below of_36_bits (shortest v ++ rest) ≡ Done v rest }
{}

/// The writer's form of a coded number is one of this value, and none of this value is shorter.
pub fn shortest_is_shortest()
    ensures code { (v : ℕ) → v < 2 ^ 36 → IsCode (shortest v) v }
    ensures least { (v : ℕ) (code : List Bool) → IsCode code v → length (shortest v) ≤ length code }
{}

/// Bytes followed by their own sum have the sum 0.
pub fn a_sum_behind_its_bytes_leaves_nothing()
    ensures crc8 { (bytes : List ℕ) → crc8_of (bits (bytes ++ crc8_of (bits bytes) ∷ [])) ≡ 0 }
    ensures crc16 { (bytes : List ℕ) → let sum = crc16_of (bits bytes) in crc16_of (bits (bytes ++ sum / 256 ∷ sum % 256 ∷ [])) ≡ 0 }
{}

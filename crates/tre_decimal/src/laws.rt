//! Laws of decimals, each as a function whose contract it is.
ghost use Rattle.std.specs.Prelude.{◌≡◌, ℕ, ◌*◌, ◌^◌, ◌<◌, true, false, Some, List, ◌∷◌, ◌++◌, length};
ghost use Rattle.std.specs.Char.{is_ascii_digit};
ghost use Rattle.std.specs.List.{list_all};
ghost use Rattle.std.specs.Str.Parse.{digits_value};
ghost use Rattle.tre_decimal.specs.Decimal.{is_number_byte, is_numeral, last_digits, number_text, units_of, units_with};

/// A number that is written is read back as that number, at each scale.
pub fn written_is_read()
    ensures { (scale units : ℕ) → units < 2 ^ 64 →
        units_of scale (number_text scale units) ≡ Some units }
{}

/// A printed number tells the number, and what follows it, where that begins with another byte than
/// those of numbers.
pub fn one_number()
    ensures { (scale units other byte next : ℕ) (rest other_rest : List ℕ) →
        units < 2 ^ 64 → other < 2 ^ 64 →
        is_number_byte byte ≡ false → is_number_byte next ≡ false →
        number_text scale units ++ (byte ∷ rest) ≡ number_text scale other ++ (next ∷ other_rest) →
        (units ≡ other) × (byte ∷ rest ≡ next ∷ other_rest) }
{}

/// The digits behind the point are digits, as many as the scale is.
pub fn last_digits_are_digits()
    ensures digits { (count number : ℕ) →
        list_all is_ascii_digit (last_digits count number) ≡ true }
    ensures count { (count number : ℕ) → length (last_digits count number) ≡ count }
{}

/// A text that is a number of units begins with a digit.
pub fn begins_with_a_digit()
    ensures { (scale byte units : ℕ) (bytes : List ℕ) →
        units_of scale (byte ∷ bytes) ≡ Some units → is_ascii_digit byte ≡ true }
{}

/// A decimal is that number of units exactly: nothing is rounded. The units of a decimal, times ten
/// for each of its decimals, are the number that all its digits write, times ten for each digit of
/// the scale.
pub fn exact()
    ensures { (scale units : ℕ) (whole decimals : List ℕ) →
        units_with scale whole decimals ≡ Some units →
        units * 10 ^ length decimals ≡ digits_value 10 (whole ++ decimals) * 10 ^ scale }
{}

/// Digits without a point are a whole number, so each scale reads it.
pub fn whole_numbers()
    ensures { (scale : ℕ) (text : List ℕ) → is_numeral text ≡ true →
        units_of scale text ≡ Some (digits_value 10 text * 10 ^ scale) }
{}

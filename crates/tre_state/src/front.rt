ghost use Rattle.std.specs.Prelude.{◌≡◌, ◌≤◌, ℕ, Bool, length};
ghost use Rattle.std.specs.List.{prefix_len};

/// How many bytes in front are of a class, which `has` decides: up to the first that is not, or
/// all.
pub fn front_len<F: Fn(u8) -> bool>(bytes: &[u8], has: F) -> usize
    requires callable { F.IsAlwaysCallable has }
    ensures len { (class : ℕ → Bool) →
        ((byte : ℕ) (is : Bool) → F.post has byte is → is ≡ class byte) →
        result ≡ prefix_len class bytes.now }
    ensures within { result ≤ length bytes.now }
{
    bytes.iter().take_while(|&&byte| has(byte)).count()
}

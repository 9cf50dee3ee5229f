ghost use Rattle.std.specs.Prelude.{◌≡◌};
ghost use Rattle.tre_state.specs.Names.{place_of, IsNameList};

use tre_state::Names;

/// The number of the name with these bytes, if it is one of the names. They need not be text.
#[inline(always)]
pub fn find_name(names: &Names, bytes: &[u8]) -> Option<u8>
    ensures place { result ≡ place_of names.now bytes.now }
    ensures list { IsNameList names.now }
{
    names.find_bytes(bytes)
}

// What is asked of the parts of a net.
ghost use Rattle.std.specs.Prelude.{◌≡◌};
ghost use Rattle.format.specs.Format.{place_size};
ghost use Rattle.net.specs.System.{told_by};

use super::Parts;
use format::place_size;

impl Parts {
    // How many elements a place has, 0 where there is no such place.
    pub(crate) fn elements(&self, place: u8) -> u8
        ensures { result ≡ place_size (told_by self.now).sig.sizes (told_by self.now).places place }
    {
        place_size(self.sizes.as_slice(), self.places.as_slice(), place)
    }
}

// What a store is to a plane: it keeps the heights and counts of the pixels.
ghost use Rattle.std.specs.Prelude.{◌≡◌, ℕ, ◌-◌, ◌<◌, ◌≤◌, List, ◌++◌, length, drop, replicate};
ghost use Rattle.planes.specs.Stores.{StoreModel, SoundStore, Filled, RaisedAt, CountedAt};

use crate::heights::Height;

// A height and a count at each place. Counts wrap at the store's modulus. Changes never alter the number of places or the modulus.
// That a place is there is asked at each call: a type for the places of one store would hold the store itself, and its number beside it.
pub trait Store {
    // what the store keeps, as a value of the logic
    ghost kept: { Self → StoreModel };

    // each store keeps the limits
    ghost sound: { (s : Self) → SoundStore (kept s) };

    // The names of the references that the store holds, which no call changes.
    ghost names: { Self → List ℕ };

    // Counts are below this number, and wrap there.
    fn modulus(&self) -> u32
        ensures { result ≡ (kept self.now).modulus };

    fn height(&self, at: usize) -> Height
        requires { at < (kept self.now).places }
        ensures { result.value ≡ (kept self.now).height at };

    fn count(&self, at: usize) -> u32
        requires { at < (kept self.now).places }
        ensures { result ≡ (kept self.now).count at };

    // The first `places` places have the ground as their height and the count 0.
    fn fill(&mut self, places: usize, ground: Height)
        requires { places ≤ (kept self.old).places }
        ensures after { Filled (kept self.old) places ground.value (kept self.new) }
        ensures names { names self.new ≡ names self.old };

    // The height at a place becomes the greater of itself and `to`.
    fn raise(&mut self, at: usize, to: Height)
        requires { at < (kept self.old).places }
        ensures after { RaisedAt (kept self.old) at to.value (kept self.new) }
        ensures names { names self.new ≡ names self.old };

    // One more in the count at a place, modulo the modulus. This and `less` are two calls, as a plane's are: each is one addition in the number
    // that holds the count.
    fn more(&mut self, at: usize)
        requires { at < (kept self.old).places }
        ensures after { CountedAt (kept self.old) at 1 (kept self.new) }
        ensures names { names self.new ≡ names self.old };

    // One less in the count at a place, modulo the modulus.
    fn less(&mut self, at: usize)
        requires { at < (kept self.old).places }
        ensures after { CountedAt (kept self.old) at ((kept self.old).modulus - 1) (kept self.new) }
        ensures names { names self.new ≡ names self.old };
}

// Fills the first places of a list with a value, the clones of which are that value.
pub(crate) fn fill_first<T: Copy>(list: &mut [T], places: usize, value: T)
    requires within { places ≤ length list.old }
    requires cloned { T.is_infallible value }
    requires same { (y : T) → T.is_clone value y → y ≡ value }
    ensures { list.new ≡ replicate places value ++ drop places list.old }
{
    list[..places].fill(value);
}

// The plane over any store: the pixel (i, j) of a plane of width w is at the place w * j + i.
ghost use Rattle.std.specs.Prelude.{◌≡◌, ◌*◌, ◌≤◌};
ghost use Rattle.planes.specs.Rowwise.{stored, stored_sound};

use crate::heights::Height;
use crate::plane::{Plane, Window};
use crate::shape::Shape;
use crate::store::Store;
use geometry::units::{Column, Row, Step};

// A store with the width and the rows of the plane that it keeps. The checks and makers stand with the stores: each takes the lists that a
// caller lends for one kind, and one for all kinds would take a store, which no caller has.
#[derive(Drop)]
pub struct Rowwise<S: Store> {
    pub(crate) store: S,
    pub(crate) shape: Shape,
    ghost fit: { shape.width * shape.rows ≤ (S.kept store).places },
}

impl<S: Store> Plane for Rowwise<S> {
    ghost model = { λ p. stored (S.kept p.store) p.shape.width p.shape.rows };

    ghost sound = { λ p. stored_sound (S.kept p.store) p.shape.width p.shape.rows (S.Store.sound p.store) p.shape.narrow p.shape.short p.shape.whole };

    ghost names = { λ p. S.Store.names p.store };

    fn width(&self) -> u16 {
        self.shape.width
    }

    fn rows(&self) -> u16 {
        self.shape.rows
    }

    fn modulus(&self) -> u32 {
        self.store.modulus()
    }

    fn window(&self) -> Window {
        self.shape.window()
    }

    fn height(&self, column: Column, row: Row) -> Option<Step> {
        let at = self.shape.place(column, row)?;
        Some(self.store.height(at).into())
    }

    fn count(&self, column: Column, row: Row) -> Option<u32> {
        let at = self.shape.place(column, row)?;
        Some(self.store.count(at))
    }

    fn wipe(&mut self, ground: Step) {
        if let Some(ground) = Height::of(ground) {
            self.store.fill(self.shape.pixels(), ground);
        }
    }

    #[tactic(auto, using(crate::proofs::Pixels::raised))]
    fn raise(&mut self, column: Column, row: Row, to: Step) {
        if let Some(to) = Height::of(to)
            && let Some(at) = self.shape.place(column, row)
        {
            self.store.raise(at, to);
        }
    }

    #[tactic(auto, using(crate::proofs::Pixels::counted))]
    fn more(&mut self, column: Column, row: Row) {
        if let Some(at) = self.shape.place(column, row) {
            self.store.more(at);
        }
    }

    #[tactic(auto, using(crate::proofs::Pixels::counted))]
    fn less(&mut self, column: Column, row: Row) {
        if let Some(at) = self.shape.place(column, row) {
            self.store.less(at);
        }
    }
}

// What a face adds to the count of a receiver.
ghost use Rattle.std.specs.Prelude.{◌≡◌, ◌^◌, ◌≤◌, unsigned_abs};
ghost use Rattle.volumes.specs.Faces.{contribution as contribution_of};
ghost use Rattle.volumes.specs.Machine.{face_of, sample_of};
ghost use Rattle.volumes.specs.Wrapped.{wrapped_contribution};
ghost use Rattle.volumes.specs.Near.{NearFace, NearSample};

use crate::cover::Sample;
use crate::face::Face;
use geometry::units::Step;

impl Face {
    // Depth-fail: a face below the receiver takes 1 where it covers the sample upwards and adds 1 where it covers it downwards.
    pub fn contribution(&self, sample: Sample, z: Step) -> i64
        ensures wrapped { result ≡ wrapped_contribution (face_of self.now) (sample_of sample) z.0 }
        ensures exact { NearFace (face_of self.now) → NearSample (sample_of sample) → unsigned_abs z.0 ≤ 2 ^ 14 → result ≡ contribution_of (face_of self.now) (sample_of sample) z.0 }
    {
        if self.is_below(sample, z) {
            self.covers(sample).weight()
        } else {
            0
        }
    }
}

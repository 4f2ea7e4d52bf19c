// The strike test for callers in C, as a static library; include/hovantsi.h declares it. Each export calls the function of its name in
// `geometry` and promises what that promises.
#![tactic(auto)]

ghost use Rattle.std.specs.Prelude.{◌≡◌};
ghost use Rattle.geometry.specs.Vectors.{vector};
ghost use Rattle.geometry.specs.Answers.{struck_or_refused, told_in_c};

// C calls a static library, and a crate is that or a library, so the function stands here again over the one of `geometry`.
// Whether the triangle a b c keeps light of the run d from the receiver p: 0 for no, 1 for yes, else the number of the refusal.
#[unsafe(no_mangle)]
pub extern "C" fn hovantsi_strike(
    dx: i64,
    dy: i64,
    dz: i64,
    ax: i64,
    ay: i64,
    az: i64,
    bx: i64,
    by: i64,
    bz: i64,
    cx: i64,
    cy: i64,
    cz: i64,
    px: i64,
    py: i64,
    pz: i64,
) -> u8
    ensures { result ≡ told_in_c (struck_or_refused (vector dx dy dz) (vector ax ay az) (vector bx by bz) (vector cx cy cz) (vector px py pz)) }
{
    geometry::export::hovantsi_strike(dx, dy, dz, ax, ay, az, bx, by, bz, cx, cy, cz, px, py, pz)
}

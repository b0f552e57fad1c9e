//! Laws of the definitions of planes. Each is a function that does nothing: its clauses hold of all values.
ghost use Rattle.std.specs.Prelude.{◌≡◌, ◌<◌, ℕ, List, [], ◌∷◌, length};
ghost use Rattle.ff_frame.specs.declared.video.Format.{Format};
ghost use Rattle.ff_frame.specs.declared.video.Format.TheVariants.{C420, C422, C444, Mono};
ghost use Rattle.ff_frame.specs.Video.{IsVideo, frame_size};
ghost use Rattle.ff_planes.specs.declared.component.Component.{Component};
ghost use Rattle.ff_frame.specs.declared.video.VFrame.{VFrame};
ghost use Rattle.ff_planes.specs.declared.component.Component.TheVariants.{Luma};
ghost use Rattle.ff_planes.specs.declared.rectangle.Rectangle.{Rectangle};
ghost use Rattle.ff_planes.specs.Grid.{columns, rows, pixel, picture_of};
ghost use Rattle.ff_planes.specs.Flips.{hflipped, vflipped};
ghost use Rattle.ff_planes.specs.Parts.{IsPart, cropped, padded};
ghost use Rattle.ff_planes.specs.Stacks.{hstacked, vstacked, all_columns, all_rows, AreOnColumns, AreOnRows, FillColumns, FillRows};
ghost use Rattle.ff_planes.specs.laws.Examples.{three_by_two, right_column, in_the_middle, grey, two_by_one};

/// The frame whose pixels a function gives has these pixels, and no more bytes than they are.
pub fn a_picture_has_the_pixels_that_make_it()
    ensures pixels { (format : Format) (width height : ℕ) (at : Component → ℕ → ℕ → ℕ) (c : Component) (row column : ℕ)
        → row < rows format height c → column < columns format width c → pixel format width height (picture_of format width height at) c row column ≡ at c row column }
    ensures size { (format : Format) (width height : ℕ) (at : Component → ℕ → ℕ → ℕ) → length (picture_of format width height at) ≡ frame_size format width height }
{}

/// A frame that is mirrored twice is the frame.
pub fn mirrors_undo_themselves()
    ensures hflip { (format : Format) (width height : ℕ) (planes : List ℕ) → IsVideo format width height planes
        → hflipped format width height (hflipped format width height planes) ≡ planes }
    ensures vflip { (format : Format) (width height : ℕ) (planes : List ℕ) → IsVideo format width height planes
        → vflipped format width height (vflipped format width height planes) ≡ planes }
{}

/// What a rectangle shows of a frame that was put there on black is that frame.
pub fn a_crop_undoes_a_pad()
    ensures { (format : Format) (width height : ℕ) (part : Rectangle) (planes : List ℕ) → IsVideo format part.width part.height planes → IsPart width height part
        → cropped format width height part (padded format width height part planes) ≡ planes }
{}

/// Frames of which all but the last have whole pixels of Cb and of Cr in the direction of stacking fill the stack.
/// That is the columns, or the rows, of Y, of Cb and of Cr that they have in all.
pub fn pictures_on_the_grid_fill_it()
    ensures columns { (format : Format) (fs : List VFrame) → AreOnColumns format fs → FillColumns format (all_columns format fs Luma) fs }
    ensures rows { (format : Format) (fs : List VFrame) → AreOnRows format fs → FillRows format (all_rows format fs Luma) fs }
{}

/// Small frames, mirrored, cut, put on black and stacked.
pub fn small_pictures()
    ensures hflip { hflipped C420 3 2 three_by_two ≡ 3 ∷ 2 ∷ 1 ∷ 6 ∷ 5 ∷ 4 ∷ 8 ∷ 7 ∷ 10 ∷ 9 ∷ [] }
    ensures vflip { vflipped C420 3 2 three_by_two ≡ 4 ∷ 5 ∷ 6 ∷ 1 ∷ 2 ∷ 3 ∷ 7 ∷ 8 ∷ 9 ∷ 10 ∷ [] }
    ensures crop { cropped C420 3 2 right_column three_by_two ≡ 3 ∷ 6 ∷ 8 ∷ 10 ∷ [] }
    ensures pad { padded C420 4 2 in_the_middle (1 ∷ 2 ∷ 3 ∷ 4 ∷ 5 ∷ 6 ∷ []) ≡ 16 ∷ 16 ∷ 1 ∷ 2 ∷ 16 ∷ 16 ∷ 3 ∷ 4 ∷ 128 ∷ 5 ∷ 128 ∷ 6 ∷ [] }
    ensures hstack { hstacked Mono 3 2 (grey 2 2 (1 ∷ 2 ∷ 3 ∷ 4 ∷ []) ∷ grey 1 2 (5 ∷ 6 ∷ []) ∷ []) ≡ 1 ∷ 2 ∷ 5 ∷ 3 ∷ 4 ∷ 6 ∷ [] }
    ensures vstack { vstacked C422 2 2 (two_by_one (1 ∷ 2 ∷ 3 ∷ 4 ∷ []) ∷ two_by_one (5 ∷ 6 ∷ 7 ∷ 8 ∷ []) ∷ []) ≡ 1 ∷ 2 ∷ 5 ∷ 6 ∷ 3 ∷ 7 ∷ 4 ∷ 8 ∷ [] }
{}

// The law of texts.
ghost use Rattle.std.specs.Prelude.{◌≡◌, ℕ, map, Ok};
ghost use Rattle.tpz_base.specs.Cubes.{Row, low_of};
ghost use Rattle.tpz_base.specs.Meshes.{Mesh};
ghost use Rattle.tpz_base.specs.Texts.{text};
ghost use Rattle.ply_body.specs.Inputs.{dropped_of, input, mesh_of};
ghost use Rattle.text_law.specs.Written.{read_back, shifted_corners, IsWritable};

/// Does nothing. Its contract is the law of texts, for every list of whole triangles that a part can hold, and whatever
/// digits its header tells:
///
/// - the text of a mesh is an input that is accepted, and means the mesh's vertices, with `low` added, and its faces;
/// - the triangles of this input are those of the mesh, in order, each corner with `low` added;
/// - none is dropped.
pub fn text_law()
    ensures read { (l digits : ℕ) (M : Mesh) (low : Row) → IsWritable l M low → input (text M low digits) 0 ≡ Ok (read_back M low) }
    ensures triangles { (l : ℕ) (M : Mesh) (low : Row) → IsWritable l M low
        → map (shifted_corners (low_of (read_back M low).rows)) (mesh_of (read_back M low).rows (read_back M low).faces) ≡ map (shifted_corners low) M }
    ensures none_dropped { (l : ℕ) (M : Mesh) (low : Row) → IsWritable l M low → dropped_of (read_back M low).rows (read_back M low).faces ≡ 0 }
{}

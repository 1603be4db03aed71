//! A viewer that connects.

ghost use Rattle.std.specs.Prelude.{◌≡◌, None, ◌∷◌, ◌++◌, [], All, ◌≤◌, IfOk, OnOk, OnErr};
ghost use Rattle.std.specs.Map.{values_of};
ghost use Rattle.messages.specs.Server.{server_version};
ghost use Rattle.viewer.specs.Viewer.{new_viewer, kept_viewer};
ghost use Rattle.viewer_list.specs.Viewers.{viewer_of, IsOfSize};
ghost use Rattle.region.specs.Places.{longest_side};

use listed::Listed;
use messages::put_version;
use std::alloc::{AllocError, Global};
use viewer::Viewer;
use viewer_list::ViewerList;

/// Inserts a viewer that connects behind all others, and returns the server's version for it. `AllocError` where memory is refused,
/// since the number is no viewer's yet.
pub fn let_in(
    alloc: Global,
    width: u32,
    height: u32,
    viewers: &mut ViewerList,
    number: u64,
) -> Result<Listed<u8>, AllocError>
    requires absent { viewer_of viewers.old number ≡ None }
    requires some_columns { 1 ≤ width }
    requires columns { width ≤ longest_side }
    requires some_rows { 1 ≤ height }
    requires rows { height ≤ longest_side }
    ensures version { IfOk result (λ bytes. bytes ≡ server_version) }
    ensures entries { OnOk result (viewers.new.pairs ≡
        viewers.old.pairs ++ (number, kept_viewer (new_viewer width height)) ∷ []) }
    ensures sized { All (IsOfSize width height) (values_of viewers.old.pairs) →
        All (IsOfSize width height) (values_of viewers.new.pairs) }
    ensures err { OnErr result (viewers.new ≡ viewers.old) }
{
    let mut version = Vec::new(alloc);
    put_version(&mut version)?;
    let viewer = Viewer::new(alloc, width, height)?;
    match viewers.connect(number, viewer) {
        Ok(()) => Ok(Listed::from_vec(version)),
        Err(_) => Err(AllocError),
    }
}

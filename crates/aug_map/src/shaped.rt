//! The types over one shape, for code that is generic in the shape of its maps.
pub use crate::joins::{Exposed, Parts};
pub use crate::map::Map;
pub use crate::shapes::{Coded, Plain};
pub use bulk_changes::{IntoShape, SyncIntoShape};
pub use tree_change::ShapeMut;
pub use tree_shape::{Of, Shape, ShapeRef, SyncShape};
pub use tree_walk::{Cursor, IterRef};

//! Keeps the open frames of an encoder as one flat list of nodes: the slots of every frame in
//! preorder, each frame above the root's behind a node that becomes its value once it is closed.
#![tactic(auto)]

mod arranging;
mod field_names;
mod frames;
mod walk;

pub use frames::NodeFrames;

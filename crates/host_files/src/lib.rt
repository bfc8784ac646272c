//! A host whose files lie in a folder of the system. It tells nothing of its content; what it does with the folder and
//! the files is stated over two small traits, `Folder` and `Opened`, which the system's own files meet.
#![tactic(auto)]

mod blocks;
mod desk;
mod dir_folder;
mod folder;
mod folder_host;
mod fresh;
mod name;
mod place;
mod trouble;
mod view;

pub use dir_folder::DirFolder;
pub use folder::{Folder, Opened};
pub use folder_host::{DirHost, FolderHost, fresh_is_send, host_is_send, view_is_send};
pub use fresh::DirFresh;
pub use name::Name;
pub use trouble::Trouble;
pub use view::DirView;

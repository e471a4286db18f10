//! Reading a script: from the bytes of a JSON document to what it asks for, or a refusal by its number.
#![tactic(auto)]

mod building;
mod built;
mod checks;
mod document_building;
mod document_limits;
mod document_names;
mod document_shapes;
mod expressions;
mod fields;
mod grammar;
mod leaves;
mod limits;
mod name_table;
mod names;
mod objects;
mod paths;
mod planning;
mod reader;
mod refusals;
mod rooms;
mod schedules;
mod shapes;
mod sizes;
mod types;
mod walks;

pub use grammar::ViewKind;
pub use objects::{kind_name, view_kind_name};
pub use planning::plans;
pub use reader::read_script;
pub use refusals::ScriptError;
pub use rooms::caps;
pub use types::{
    Edits, Event, Events, Script, ShareDef, ShareDefs, SourceDef, SourceDefs, ViewDef, ViewDefs,
    WriterDef, WriterDefs,
};

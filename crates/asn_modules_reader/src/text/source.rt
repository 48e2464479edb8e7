//! Defines texts of modules that were read.
use asn_modules_grammar::notation::Module;

/// Is a text that was read: its modules, whose names and numbers are tokens of it.
#[derive(Drop)]
pub struct Source<'t> {
    /// Is the name of the text, as of its file.
    pub file: &'t str,
    /// Is the text.
    pub text: &'t str,
    /// Lists its modules, in order.
    pub modules: Vec<Module>,
}

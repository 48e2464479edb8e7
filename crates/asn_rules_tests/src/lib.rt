//! Tests both codecs by direct calls: bit strings, object identifiers, extension additions, texts
//! that are cut short, types that the program has no name for, JSON documents, and versions of
//! types. There is nothing here but tests; they stand apart, so that they are proved beside the
//! others.
#![tactic(auto)]

#[cfg(test)]
mod additions;
#[cfg(test)]
mod bits;
#[cfg(test)]
mod checks;
#[cfg(test)]
mod cut_texts;
#[cfg(test)]
mod document_texts;
#[cfg(test)]
mod documents;
#[cfg(test)]
mod growth;
#[cfg(test)]
mod newer;
#[cfg(test)]
mod odd_types;
#[cfg(test)]
mod older;

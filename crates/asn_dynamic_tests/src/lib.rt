//! Tests values of types that a program holds as data, texts that are cut for older types, and
//! pairs of shapes that differ in one thing, by direct calls. They show what no contract states:
//! that calls succeed and that lines are kept where there is memory.
#![tactic(auto)]

#[cfg(test)]
mod checks;
#[cfg(test)]
mod example;
#[cfg(test)]
mod growth;
#[cfg(test)]
mod kept_texts;
#[cfg(test)]
mod nested;
#[cfg(test)]
mod values;

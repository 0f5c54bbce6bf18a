//! Tests of what is read, from outside: bytes, words, texts, graphs and made texts.
#![tactic(auto)]

#[cfg(test)]
mod base;
#[cfg(test)]
mod graph;
#[cfg(test)]
mod made_texts;
#[cfg(test)]
mod text;
#[cfg(test)]
mod words;

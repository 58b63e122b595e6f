// Checks of the layers from outside: tables worked by hand, every refusal at its boundary, buffers that stay untouched.
#![tactic(auto)]

#[cfg(test)]
mod lines;
#[cfg(test)]
mod ranges;
#[cfg(test)]
mod row_tables;
#[cfg(test)]
mod symbols;
#[cfg(test)]
mod tokens;

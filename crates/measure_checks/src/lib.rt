// Checks of the measures from outside: the most moves, the widest move, contents that no moves could have made, and lines of every length. The figures were worked by hand.
#![tactic(auto)]

#[cfg(test)]
mod contents;
#[cfg(test)]
mod lines;
#[cfg(test)]
mod moves;

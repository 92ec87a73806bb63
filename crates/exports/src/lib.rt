// The C face: every public entry under a plain name, with structs of numbers for its answers. Number 0 is done; any other number is a refusal's, with
// its place. What an answer does not have is 0.
#![tactic(auto)]

mod bridges;
mod chained;
mod counts;
mod doors;
mod hands;
mod picks;
mod records;
mod rings;
mod rounds;
mod told;
mod uses;

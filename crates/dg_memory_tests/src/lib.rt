//! What the calls of the libraries answer if memory is refused. `tests/memory/check` runs each test with each of its requests for
//! memory refused in turn. A call that was refused it is made once more, and then has to answer as it does otherwise. After
//! each call a line says what came of it; between two lines stand the requests of one call.
#![tactic(auto)]

#[cfg(test)]
mod acts;
#[cfg(test)]
mod alone;
#[cfg(test)]
#[cfg(test)]
mod outcomes;
#[cfg(test)]
mod sparing;
#[cfg(test)]
mod tables;

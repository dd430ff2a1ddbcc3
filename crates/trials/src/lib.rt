// Trials of the alphabets, the codes and the sheets: worked examples, and every edge of sizes, cells and numbers, as tables of calls.
#![tactic(auto)]

#[cfg(test)]
mod calls;
#[cfg(test)]
mod edges;
#[cfg(test)]
mod plates;
#[cfg(test)]
mod sheets;
#[cfg(test)]
mod worked;

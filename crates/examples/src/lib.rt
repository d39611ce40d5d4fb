// Examples of what the layers answer, run as tests. They stand apart so that no layer is proved twice for them.
#![tactic(auto)]

#[cfg(test)]
mod events_tests;
#[cfg(test)]
mod kept_tests;
#[cfg(test)]
mod records_tests;
#[cfg(test)]
mod scalars_tests;
#[cfg(test)]
mod tape_file_tests;

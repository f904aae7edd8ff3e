//! Tests of terms, of substitution and of the kernel, by calls that no file of the program's reaches. Below
//! stand `lf_terms` and `lf_kernel`. With ample memory each call answers.
#![tactic(auto)]

#[cfg(test)]
mod checks;
#[cfg(test)]
mod makers;
#[cfg(test)]
mod substitutions;
#[cfg(test)]
mod tests;

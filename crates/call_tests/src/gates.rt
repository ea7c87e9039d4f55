//! Tests of the shadow history, the rule of views and the gate.

#[cfg(test)]
mod accesses;
#[cfg(test)]
mod cores;
#[cfg(test)]
mod gate;
#[cfg(test)]
mod reads;

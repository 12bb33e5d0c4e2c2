// The five kinds of events, a module each: what scheduling one finds.
#![tactic(auto)]

mod course;
pub mod inter_particle_collision;
pub mod move_out_of_cell;
pub mod move_to_neighbour;
pub mod synchronisation;
pub mod wall_reflection;

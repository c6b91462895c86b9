//! The order of decisions: a heap of the variables, the most active one first.

use crate::Memory;
use crate::cells::{narrow, read, write};
use std::alloc::Global;

/// The place of a variable that is not in the heap.
const ABSENT: u32 = u32::MAX;

/// Above this the activities are scaled down.
const GREATEST: f64 = 1e100;

const SCALE: f64 = 1e-100;

/// By how much the weight of a bump grows from one conflict to the next.
const GROWTH: f64 = 1.0526315789473684;

#[derive(Drop)]
pub struct Order {
    heap: Vec<u32>,
    places: Vec<u32>,
    activity: Vec<f64>,
    weight: f64,
}

impl Order {
    pub fn new(alloc: Global, vars: usize) -> Result<Order, Memory> {
        let mut heap = Vec::new(alloc);
        let mut places = Vec::new(alloc);
        for var in 0..vars {
            heap.push(narrow(var))?;
            places.push(narrow(var))?;
        }
        Ok(Order {
            heap,
            places,
            activity: vec![in alloc; 0.0; vars]?,
            weight: 1.0,
        })
    }

    /// Takes the most active variable out.
    pub fn pop(&mut self) -> Option<u32> {
        let first = *self.heap.first()?;
        let last = self.heap.pop()?;
        write(&mut self.places, first as usize, ABSENT);
        if !self.heap.is_empty() {
            self.put(0, last);
            self.sink(0);
        }
        Some(first)
    }

    pub fn insert(&mut self, var: usize) -> Result<(), Memory> {
        if read(&self.places, var, 0) != ABSENT {
            return Ok(());
        }
        let at = self.heap.len();
        self.heap.push(narrow(var))?;
        write(&mut self.places, var, narrow(at));
        self.rise(at);
        Ok(())
    }

    pub fn bump(&mut self, var: usize) {
        let activity = self.activity_of(var) + self.weight;
        write(&mut self.activity, var, activity);
        if activity > GREATEST {
            self.scale_down();
        }
        let at = read(&self.places, var, ABSENT);
        if at != ABSENT {
            self.rise(at as usize);
        }
    }

    /// Makes later bumps weigh more.
    pub fn decay(&mut self) {
        self.weight = self.weight * GROWTH;
    }

    fn scale_down(&mut self) {
        for activity in self.activity.iter_mut() {
            *activity = *activity * SCALE;
        }
        self.weight = self.weight * SCALE;
    }

    fn activity_of(&self, var: usize) -> f64 {
        read(&self.activity, var, 0.0)
    }

    fn var_at(&self, at: usize) -> u32 {
        read(&self.heap, at, 0)
    }

    fn put(&mut self, at: usize, var: u32) {
        write(&mut self.heap, at, var);
        write(&mut self.places, var as usize, narrow(at));
    }

    fn rise(&mut self, at: usize) {
        let var = self.var_at(at);
        let activity = self.activity_of(var as usize);
        let mut at = at;
        for _ in 0..u64::MAX {
            if at == 0 {
                break;
            }
            let parent = (at - 1) / 2;
            let above = self.var_at(parent);
            if activity <= self.activity_of(above as usize) {
                break;
            }
            self.put(at, above);
            at = parent;
        }
        self.put(at, var);
    }

    fn sink(&mut self, at: usize) {
        let var = self.var_at(at);
        let activity = self.activity_of(var as usize);
        let mut at = at;
        for _ in 0..u64::MAX {
            let child = self.greater_child(at);
            if child >= self.heap.len() {
                break;
            }
            let below = self.var_at(child);
            if self.activity_of(below as usize) <= activity {
                break;
            }
            self.put(at, below);
            at = child;
        }
        self.put(at, var);
    }

    /// The place below `at` whose variable is more active, maybe past the end.
    fn greater_child(&self, at: usize) -> usize {
        let left = at.wrapping_mul(2).wrapping_add(1);
        let right = left.wrapping_add(1);
        let of_left = self.activity_of(self.var_at(left) as usize);
        let of_right = self.activity_of(self.var_at(right) as usize);
        if right < self.heap.len() && of_right > of_left {
            right
        } else {
            left
        }
    }
}

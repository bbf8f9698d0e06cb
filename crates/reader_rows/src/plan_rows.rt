//! Rows of plan files.

use crate::answer::Answer;
use crate::fault::Fault;
use crate::told::Told;
use std::alloc::{AllocError, Global};
use tr_plan::{Absence, Disregard, Include, Link, Plan, PlanFault, Program, Schedule};

/// The plan that a text is, or its first fault.
pub(crate) fn plan_answer(alloc: Global, text: &[u8]) -> Result<Answer, Fault> {
    let mut told = Told::new(alloc);
    match Plan::read(alloc, text) {
        Ok(plan) => push_plan(&mut told, &plan)?,
        Err(fault) => push_fault(&mut told, &fault)?,
    }
    Ok(Answer::of(alloc, text, told)?)
}

fn push_fault(told: &mut Told, fault: &PlanFault) -> Result<(), Fault> {
    match fault {
        PlanFault::PlanText => told.word(b"no TOML")?,
        PlanFault::PlanField { table, place, key } => {
            told.number(b"off table", u64::from(*table))?;
            told.number(b"row", u64::from(*place))?;
            told.number(b"key", u64::from(*key))?;
        }
        PlanFault::UnknownCode { place } => told.number(
            b"unknown code of link",
            u64::from(*place),
        )?,
        PlanFault::Overlap { cpf } => told.cpf(b"overlap", cpf)?,
        PlanFault::OutOfMemory => return Err(Fault::Memory),
    }
    Ok(())
}

fn push_plan(told: &mut Told, plan: &Plan) -> Result<(), AllocError> {
    push_program(told, &plan.program)?;
    for place in 0..plan.schedules.len() {
        push_schedule(told, plan.schedules.get(place))?;
    }
    for place in 0..plan.links.len() {
        push_link(told, plan.links.get(place))?;
    }
    for place in 0..plan.disregards.len() {
        push_disregard(told, plan.disregards.get(place))?;
    }
    for place in 0..plan.includes.len() {
        push_include(told, plan.includes.get(place))?;
    }
    for place in 0..plan.absences.len() {
        push_absence(told, plan.absences.get(place))?;
    }
    Ok(())
}

fn push_program(told: &mut Told, program: &Program) -> Result<(), AllocError> {
    told.text(b"program", program.name.bytes())?;
    told.text(b"version", program.version.bytes())?;
    told.employer(&program.developer)?;
    told.text(b"maker", program.developer_name.bytes())?;
    told.text(b"e-mail", program.email.bytes())?;
    told.signed(b"offset", i64::from(program.offset))?;
    told.number(b"rep kind", u64::from(program.rep_kind))?;
    told.text(b"caepf", program.caepf.bytes())?;
    told.text(b"cno", program.cno.bytes())
}

fn push_schedule(told: &mut Told, schedule: &Schedule) -> Result<(), AllocError> {
    told.text(b"schedule", schedule.code.bytes())?;
    told.number(b"minutes", u64::from(schedule.minutes))?;
    for place in 0..schedule.times.len() {
        told.number(b"time", u64::from(*schedule.times.get(place)))?;
    }
    Ok(())
}

fn push_link(told: &mut Told, link: &Link) -> Result<(), AllocError> {
    told.number(b"link", u64::from(link.id))?;
    told.cpf(b"cpf", &link.cpf)?;
    told.text(b"name", link.name.bytes())?;
    told.text(b"works", link.schedule.bytes())?;
    told.day(b"since", &link.since)?;
    told.day(b"until", &link.until)?;
    told.number(b"turn", u64::from(link.turn))?;
    told.text(b"esocial", link.esocial.bytes())?;
    told.signed(b"opening", link.opening)
}

fn push_disregard(told: &mut Told, disregard: &Disregard) -> Result<(), AllocError> {
    told.number(b"disregard", u64::from(disregard.nsr))?;
    told.text(b"reason", disregard.reason.bytes())
}

fn push_include(told: &mut Told, include: &Include) -> Result<(), AllocError> {
    told.number(b"include of", u64::from(include.link))?;
    told.stamp(b"at", &include.at)?;
    told.shown(b"source", &[include.source])?;
    told.text(b"reason", include.reason.bytes())
}

fn push_absence(told: &mut Told, absence: &Absence) -> Result<(), AllocError> {
    told.number(b"absence of", u64::from(absence.link))?;
    told.number(b"kind", u64::from(absence.kind))?;
    told.day(b"date", &absence.date)?;
    told.number_or_no(b"minutes", absence.minutes.map(u64::from))?;
    told.number_or_no(b"movement", absence.movement.map(u64::from))
}

//! The text of the functions of the opening store that are written in the language itself.
#![tactic(auto)]

ghost use Rattle.std.specs.Prelude.{◌≡◌};
ghost use Rattle.actx_bundle.specs.Bundle.{bundle};

/// The text, in ASCII: 23 function declarations (ECMA-262 §15.2), each on a line of its own, which a line
/// feed ends. They do what ECMA-262 says of the functions of arrays, of `Array`, of Maps and Sets, of
/// promises and of `Promise`, for the values that a program may hold (§23.1, §24.1, §24.2, §27.2), and what
/// Node's documentation says of `timers/promises` and of `EventEmitter`.
pub fn bundle_text() -> &'static str
    ensures { result.now ≡ bundle }
{
    "function map(f) { const out = []; const n = this.length; for (let i = 0; i < n && i < this.length; i += 1) out.push(f(this[i], i, this)); return out; }
function forEach(f) { const n = this.length; for (let i = 0; i < n && i < this.length; i += 1) f(this[i], i, this); }
function filter(f) { const out = []; const n = this.length; for (let i = 0; i < n && i < this.length; i += 1) { const v = this[i]; if (f(v, i, this)) out.push(v); } return out; }
function reduce(f, ...s) { const n = this.length; let i = 0; let a; if (s.length > 0) a = s[0]; else { if (n === 0) throw new TypeError('bad argument'); a = this[0]; i = 1; } for (; i < n && i < this.length; i += 1) a = f(a, this[i], i, this); return a; }
function find(f) { const n = this.length; for (let i = 0; i < n; i += 1) { const v = this[i]; if (f(v, i, this)) return v; } }
function some(f) { const n = this.length; for (let i = 0; i < n && i < this.length; i += 1) if (f(this[i], i, this)) return true; return false; }
function every(f) { const n = this.length; for (let i = 0; i < n && i < this.length; i += 1) if (!f(this[i], i, this)) return false; return true; }
function from(items, f) { const out = []; for (const v of items) out.push(f === undefined ? v : f(v, out.length)); return out; }
function mapEach(f) { for (const [k, v] of this) f(v, k, this); }
function setEach(f) { for (const v of this) f(v, v, this); }
function catch_(f) { return this.then(undefined, f); }
function finally_(f) { if (typeof f !== 'function') return this.then(f, f); return this.then((v) => Promise.resolve(f()).then(() => v), (e) => Promise.resolve(f()).then(() => { throw e; })); }
function all(items) { return new Promise((done, fail) => { const out = []; let left = 1; for (const item of items) { const i = out.length; left += 1; out.push(undefined); Promise.resolve(item).then((v) => { out[i] = v; left -= 1; if (left === 0) done(out); }, fail); } left -= 1; if (left === 0) done(out); }); }
function allSettled(items) { return new Promise((done) => { const out = []; let left = 1; const put = (i, r) => { out[i] = r; left -= 1; if (left === 0) done(out); }; for (const item of items) { const i = out.length; left += 1; out.push(undefined); Promise.resolve(item).then((value) => put(i, { status: 'fulfilled', value }), (reason) => put(i, { status: 'rejected', reason })); } left -= 1; if (left === 0) done(out); }); }
function race(items) { return new Promise((done, fail) => { for (const item of items) Promise.resolve(item).then(done, fail); }); }
function any(items) { return new Promise((done, fail) => { const errors = []; let left = 1; const end = () => { left -= 1; if (left === 0) fail(new AggregateError(errors, 'all rejected')); }; for (const item of items) { const i = errors.length; left += 1; errors.push(undefined); Promise.resolve(item).then(done, (e) => { errors[i] = e; end(); }); } end(); }); }
function withResolvers() { let resolve; let reject; const promise = new Promise((a, b) => { resolve = a; reject = b; }); return { promise, resolve, reject }; }
function sleep(ms, value) { return new Promise((done) => { setTimeout(done, ms, value); }); }
function pause(value) { return new Promise((done) => { setImmediate(done, value); }); }
function on(name, f) { if (this._events === undefined) this._events = new Map(); const list = this._events.get(name); this._events.set(name, list === undefined ? [f] : [...list, f]); return this; }
function once(name, f) { const g = (...args) => { this.off(name, g); return f.apply(this, args); }; g.listener = f; return this.on(name, g); }
function off(name, f) { const list = this._events === undefined ? undefined : this._events.get(name); if (list === undefined) return this; let k = list.length - 1; while (k >= 0 && list[k] !== f && list[k].listener !== f) k -= 1; if (k >= 0) this._events.set(name, [...list.slice(0, k), ...list.slice(k + 1)]); return this; }
function emit(name, ...args) { const list = this._events === undefined ? undefined : this._events.get(name); if (list === undefined || list.length === 0) { if (name === 'error') throw args[0]; return false; } for (const f of list) f.apply(this, args); return true; }
"
}

#[cfg(test)]
mod tests;

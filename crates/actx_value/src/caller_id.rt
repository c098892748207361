//! The built-in functions that the machine itself answers.

/// A built-in function that the machine answers, since it calls a function or touches the inner part
/// of an object: a promise, a generator, a timer, a variable, a capture, a resource or a hook.
#[derive(Clone, Copy, Debug, PartialEq, Eq)]
pub enum CallerId {
    /// `host.operation(fn)`
    HostOperation,
    /// `process.nextTick(fn, ...args)`
    NextTick,
    /// `setTimeout(fn, delay, ...args)`
    SetTimeout,
    /// `setInterval(fn, delay, ...args)`
    SetInterval,
    /// `setImmediate(fn, ...args)`
    SetImmediate,
    /// `clearTimeout(timeout)`
    ClearTimeout,
    /// `clearInterval(timeout)`
    ClearInterval,
    /// `clearImmediate(immediate)`
    ClearImmediate,
    /// `queueMicrotask(fn)`
    QueueMicrotask,
    /// `Function.prototype.call`, ECMA-262 §20.2.3.3
    FunctionCall,
    /// `Function.prototype.apply`, ECMA-262 §20.2.3.1
    FunctionApply,
    /// `Function.prototype.bind`, ECMA-262 §20.2.3.2
    FunctionBind,
    /// `new Promise(executor)`, ECMA-262 §27.2.3.1
    Promise,
    /// `Promise.resolve(value)`, ECMA-262 §27.2.4.7
    PromiseResolve,
    /// `Promise.reject(reason)`, ECMA-262 §27.2.4.6
    PromiseReject,
    /// `Promise.prototype.then`, ECMA-262 §27.2.5.4
    PromiseThen,
    /// `%GeneratorPrototype%.next`, ECMA-262 §27.5.1.2
    GeneratorNext,
    /// `%GeneratorPrototype%.return`, ECMA-262 §27.5.1.3
    GeneratorReturn,
    /// `%GeneratorPrototype%.throw`, ECMA-262 §27.5.1.4
    GeneratorThrow,
    /// `new AsyncContext.Variable(options)`
    Variable,
    /// `AsyncContext.Variable.prototype.get`
    VariableGet,
    /// `AsyncContext.Variable.prototype.run`
    VariableRun,
    /// `new AsyncContext.Snapshot()`
    Snapshot,
    /// `AsyncContext.Snapshot.wrap(fn)`
    SnapshotWrap,
    /// `AsyncContext.Snapshot.prototype.run`
    SnapshotRun,
    /// `new AsyncLocalStorage()`
    Storage,
    /// `AsyncLocalStorage.bind(fn)`
    StorageBind,
    /// `AsyncLocalStorage.snapshot()`
    StorageSnapshot,
    /// `AsyncLocalStorage.prototype.run`
    StorageRun,
    /// `AsyncLocalStorage.prototype.exit`
    StorageExit,
    /// `AsyncLocalStorage.prototype.enterWith`
    StorageEnterWith,
    /// `AsyncLocalStorage.prototype.getStore`
    StorageGetStore,
    /// `AsyncLocalStorage.prototype.disable`
    StorageDisable,
    /// `new AsyncResource(type, options)`
    Resource,
    /// `AsyncResource.bind(fn, type, thisArg)`
    ResourceBindFunction,
    /// `AsyncResource.prototype.runInAsyncScope`
    ResourceRunInAsyncScope,
    /// `AsyncResource.prototype.emitDestroy`
    ResourceEmitDestroy,
    /// `AsyncResource.prototype.asyncId`
    ResourceAsyncId,
    /// `AsyncResource.prototype.triggerAsyncId`
    ResourceTriggerAsyncId,
    /// `AsyncResource.prototype.bind(fn)`
    ResourceBind,
    /// `createHook(callbacks)` of `async_hooks`
    CreateHook,
    /// `enable` of a hook
    HookEnable,
    /// `disable` of a hook
    HookDisable,
    /// `executionAsyncId()` of `async_hooks`
    ExecutionAsyncId,
    /// `triggerAsyncId()` of `async_hooks`
    TriggerAsyncId,
    /// `executionAsyncResource()` of `async_hooks`
    ExecutionAsyncResource,
}
